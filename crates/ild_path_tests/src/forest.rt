//! HAMTs of HAMTs in unions in lists, three deep, under edits. Four keys with the same two bytes in front stand in a node at the third level, so
//! that an edit of the innermost part goes through twelve nodes. The blocks and the roots are those of tests/paths/rows.py, which builds each
//! value from scratch.
use crate::told::{doc_of, is_told, is_whole};
use hex::decode;
use ild_compile::compile;
use ild_data::PadKeys;
use ild_edges::MemStore;
use std::alloc::Global;
use std::test::Fail;

pub(crate) const SRC: &str =
    "type Forest [Tree] type Tree union { | Twigs \"t\" | Leaf \"l\" } representation keyed type Twigs {String:Branch} representation advanced HAMT type Branch {String:Forest} representation adva\
        nced HAMT type Leaf int";

/// The root block of the first value.
pub(crate) const ROOT: &str =
    "82a1616c01a16174a36468616d74825820000000000000000000000000060000000000000000000000000000000000000082d82a5825000171122062cce648ee276e658d5300bf551d97c2f8a8abfa661974a2539ca0e9f1a627a581824162\
        a36468616d74825820000000000000000000000000040000000000000000000000000000000000000081d82a58250001711220441cb6936431c8ea238df1da48ebe986bafa8328b1138d663784c2ba0283c3386768617368416c67126a6275\
        636b657453697a65036768617368416c67126a6275636b657453697a6503";

/// The nodes beneath it.
const NODES: [&str; 14] = [
    "8258200000000000001e000000000000000000000000000000000000000000000000008481824362623180818243626232808182436262338081824362623480",
    "825820000000000000000000000000040000000000000000000000000000000000000081d82a58250001711220b3dec28ac0a29866eb4ee4cf2e45f3a52132d63e28bc14c21ee8f8b44fc01df0",
    "8258200000000000001e000000000000000000000000000000000000000000000000008481824371713180818243717132808182437171338081824371713481a1616c07",
    "825820000000000000000000000000000002000000000000000000000000000000000081d82a58250001711220bca08758d19b38f0f12d27fb1d83e97875e5762492ff167869dd9f11eb0724f0",
    "8258200000000000001e0000000000000000000000000000000000000000000000000084818243707031a36468616d748258200000000000000000000000000000000000000000000000000000000000000000806768617368416c67126a62\
        75636b657453697a6503818243707032a36468616d748258200000000000000000000000000000000000000000000000000000000000000000806768617368416c67126a6275636b657453697a6503818243707033a36468616d7482582000\
        00000000000000000000000000000000000000000000000000000000000000806768617368416c67126a6275636b657453697a6503818243707034a36468616d74825820000000000000000000000000000002000000000000000000000000\
        000000000081d82a58250001711220fbcd8e12484ab78ba57ca63cb0c2f6b817d5cec71ec213152140315423fbec146768617368416c67126a6275636b657453697a6503",
    "825820000000000000000000000000000001000000000000000000000000000000000081d82a5825000171122093e82bede2c65a861d634d75afdb96f9355970039652b5061772b460b472c6be",
    "8258200000000000001e00000000000000000000000000000000000000000000000000848182436e6e31808182436e6e32808182436e6e33808182436e6e3481a16174a36468616d7482582000000000000000000000000000000100000000\
        0000000000000000000000000081d82a582500017112201c66c1ad052a726cface7e735c49addda8b40d025bdbdc4562ff2163ab608f136768617368416c67126a6275636b657453697a6503",
    "825820000000000000000000000000004000000000000000000000000000000000000081d82a5825000171122068b1e8cd96d7f876754265c3b4e2a82189a5bdcd8cc1a319c053681c2478fe26",
    "8258200000000000001e00000000000000000000000000000000000000000000000000848182436d6d31a36468616d748258200000000000000000000000000000000000000000000000000000000000000000806768617368416c67126a62\
        75636b657453697a65038182436d6d32a36468616d748258200000000000000000000000000000000000000000000000000000000000000000806768617368416c67126a6275636b657453697a65038182436d6d33a36468616d7482582000\
        00000000000000000000000000000000000000000000000000000000000000806768617368416c67126a6275636b657453697a65038182436d6d34a36468616d74825820000000000000000000000000004000000000000000000000000000\
        000000000081d82a5825000171122037787db680dd06810bb395f3951788a82470fe6bf9ddbd2cc8d03b47f9ad59606768617368416c67126a6275636b657453697a6503",
    "825820000000000000000000000000002000000000000000000000000000000000000081d82a58250001711220c8021de9ee1dde19dabde7710ccc3c8dad17e10a5d6b6692511eca553e7eb1c3",
    "8258200000000000001e000000000000000000000000000000000000000000000000008481824378783180818243787832808182437878338081824378783482a1616c01a16174a36468616d74825820000000000000000000000000042000\
        00000000000000000000000000000000008281824162a36468616d74825820000000000000000000000000040000000000000000000000000000000000000081d82a58250001711220441cb6936431c8ea238df1da48ebe986bafa8328b113\
        8d663784c2ba0283c3386768617368416c67126a6275636b657453697a6503d82a582500017112204a18a870c758f62a0929c584001f5e5c613ee08f5270c0a1c22ade67a12a4ec56768617368416c67126a6275636b657453697a6503",
    "825820000000000000000000000000000000010000000000000000000000000000000081d82a58250001711220372bb2be67de9c4024734d8706fdc20da3819d057827203a2ba12f81327ef482",
    "8258200000000000001e0000000000000000000000000000000000000000000000000084818243616131a36468616d748258200000000000000000000000000000000000000000000000000000000000000000806768617368416c67126a62\
        75636b657453697a6503818243616132a36468616d748258200000000000000000000000000000000000000000000000000000000000000000806768617368416c67126a6275636b657453697a6503818243616133a36468616d7482582000\
        00000000000000000000000000000000000000000000000000000000000000806768617368416c67126a6275636b657453697a6503818243616134a36468616d74825820000000000000000000000000000000010000000000000000000000\
        000000000081d82a58250001711220ae8054acb68ac9b86a2bbe53a313ea5b0986f1f2c6c7925542b13bb5eb8e38b86768617368416c67126a6275636b657453697a6503",
    "825820000000000000000000000000020000000000000000000000000000000000000081d82a582500017112205b80730b9c06a95c94a651c3bcfbdd12d7c56d68ba94d4102f78be4b2a1d44d3",
];

/// How many they are.
pub(crate) const COUNT: usize = 14;

/// Edits one after another, each with its reply.
const EDITS: [&str; 34] = [
    "set . [{\"Leaf\":1},{\"Twigs\":{\"aa1\":{},\"aa2\":{},\"aa3\":{},\"aa4\":{\"xx1\":[],\"xx2\":[],\"xx3\":[],\"xx4\":[{\"Leaf\":1},{\"Twigs\":{\"mm1\":{},\"mm2\":{},\"mm3\":{},\"mm4\":{\"nn1\
        \":[],\"nn2\":[],\"nn3\":[],\"nn4\":[{\"Twigs\":{\"pp1\":{},\"pp2\":{},\"pp3\":{},\"pp4\":{\"qq1\":[],\"qq2\":[],\"qq3\":[],\"qq4\":[{\"Leaf\":7}]}}}]},\"b\":{\"bb1\":[],\"bb2\":[],\"bb3\":[\
        ],\"bb4\":[]}}}]},\"b\":{\"bb1\":[],\"bb2\":[],\"bb3\":[],\"bb4\":[]}}}] => root bafyreidpch62taxymabmrwn25oie7o7asdx2cwlnpppetbkcbqokko5kee\n",
    "set /1/Twigs/aa4/xx4/1/Twigs/mm4/nn4/0/Twigs/pp4/qq4/0/Leaf 8 => root bafyreievk4drx4ahq7kxsdgm55xscnywrdb42dpghhpzkxb24vyrlbkizm\n",
    "ins /1/Twigs/aa4/xx4/1/Twigs/mm4/nn4/0/Twigs/pp4/qq4/- {\"Leaf\":9} => root bafyreicyf4ro5xq5fk6dynvivt4lpgli3odkje2pad663qomn2wnvxwt4q\n",
    "ins /1/Twigs/aa4/xx4/1/Twigs/mm4/nn4/0/Twigs/pp4/qq5 [] => root bafyreib4s5uwgyihy5dwrscrnxvb7jeeslrefj36x7ftmymcuyerz4d62q\n",
    "ins /1/Twigs/aa4/xx4/1/Twigs/mm4/nn4/0/Twigs/pp4/qq5 [] => no 2 path\n",
    "del /1/Twigs/aa4/xx4/1/Twigs/mm4/nn4/0/Twigs/pp4/qq5 => root bafyreicyf4ro5xq5fk6dynvivt4lpgli3odkje2pad663qomn2wnvxwt4q\n",
    "del /1/Twigs/aa4/xx4/1/Twigs/mm4/nn4/0/Twigs/pp4/qq5 => no 2 path\n",
    "del /1/Twigs/aa4/xx4/1/Twigs/mm4/nn4/0/Twigs/pp4/qq1 => root bafyreid2n3rw2oi72rl4yiddtj2hy6hcgpytvyg2gjy7356xeswzk6pknq\n",
    "set /1/Twigs/aa4/xx4/1/Twigs/mm4/nn4/0/Twigs/pp4/qq1 [{\"Leaf\":2},{\"Twigs\":{}}] => root bafyreie3il7jxyg6sjgozbd3msw2ju5osb53fog5aru2q47tvbujg6caiu\n",
    "del /1/Twigs/aa4/xx4/1/Twigs/mm4/nn4/0/Twigs/pp4/qq4/0 => root bafyreictv5yzmvp6irvdbkeisgbq5egl3l4k62aq7saglxkvzrvxqos2p4\n",
    "set /1/Twigs/aa4/xx4/1/Twigs/mm4/nn4/0/Twigs/pp4/qq4/0/Twigs {\"uu1\":{},\"uu2\":{},\"uu3\":{},\"uu4\":{\"vv1\":[],\"vv2\":[],\"vv3\":[],\"vv4\":[{\"Leaf\":5}]}} => root bafyreieus5omy2eqqwr\
        2dvrhxjh3jqxy7w5jidjkcjhovv7vyyqbzsfsma\n",
    "set /1/Twigs/aa4/xx4/1/Twigs/mm4/nn4/0/Twigs/pp4/qq4/0/Twigs/uu4/vv4/0/Leaf 6 => root bafyreihg5lhzbqkbcsyhwekrqlcabypocvvvl4jshkvw2vhb4zzoced7sm\n",
    "del /1/Twigs/aa4/xx4/1/Twigs/mm4/nn4/0/Twigs/pp4/qq4/0/Twigs/uu2 => root bafyreidvyxyz4wo42z4tovqrici4rtxzl4x2en355pq3afdalhlzyv2yte\n",
    "ins /1/Twigs/aa4/xx4/1/Twigs/mm4/nn4/0 {\"Leaf\":3} => root bafyreicdtnfsywvr3nrd35mx3zryxav7vh5at7342rge3i7pex4a66gv4y\n",
    "del /1/Twigs/aa4/xx4/1/Twigs/mm4/nn4/1/Twigs/pp3 => root bafyreigl6pjr3ljhhty3225pyexdjppt66oa6cnxidbyoxrmub44edptz4\n",
    "set /1/Twigs/aa4/xx4/1/Leaf 5 => root bafyreie6dr43kjey6n7opvlcrbyk5rz727gsafazbemadqxddf4rknrrru\n",
    "del /1/Twigs/aa4/xx4/1/Leaf => no 4 mismatch\n",
    "del /1/Twigs/aa4/xx4/1/Twigs => no 2 path\n",
    "set /1/Twigs/aa4/xx4/1/Twigs {\"uu1\":{},\"uu2\":{},\"uu3\":{},\"uu4\":{\"vv1\":[],\"vv2\":[],\"vv3\":[],\"vv4\":[{\"Leaf\":5}]}} => root bafyreicomzxiiwyyvgqfevqlizafggvo6cbuwjyfzrft565pid6\
        fdli4ke\n",
    "ins /1/Twigs/aa4/xx4/1/Twigs {\"uu1\":{},\"uu2\":{},\"uu3\":{},\"uu4\":{\"vv1\":[],\"vv2\":[],\"vv3\":[],\"vv4\":[{\"Leaf\":5}]}} => no 2 path\n",
    "ins /1/Twigs/aa4/xx4/1/Twigs/uu9/x/0/Leaf 1 => no 2 path\n",
    "set /1/Twigs/aa4/xx4/0/Leaf null => no 4 mismatch\n",
    "set /1/Twigs/aa4/xx4/0/Leaf [ => no 3 json\n",
    "set /1/Twigs/aa4/xx4/2 {\"Leaf\":3} => no 2 path\n",
    "ins /1/Twigs/b/kkkkkkkkkkkkkkkkkkkkkkkkkkkkkkkk1 [] => root bafyreifonscb6qfh6ll6urn2lkk64fdq26cjaqt2fiyzuozo6pukqyaprq\n",
    "ins /1/Twigs/b/kkkkkkkkkkkkkkkkkkkkkkkkkkkkkkkk2 [] => root bafyreihts2jmhtn27o2m5tl6eorzqi7c4jqh6c5xmfhifneixdo2ivurb4\n",
    "ins /1/Twigs/b/kkkkkkkkkkkkkkkkkkkkkkkkkkkkkkkk3 [] => root bafyreiemuefcqrqeo34fiarhxiimfwec4p4ynn6gvezvwooovle3567pky\n",
    "ins /1/Twigs/b/kkkkkkkkkkkkkkkkkkkkkkkkkkkkkkkk4 [] => no 8 exhausted\n",
    "set /1/Twigs/b/kkkkkkkkkkkkkkkkkkkkkkkkkkkkkkkk3 [{\"Leaf\":1}] => root bafyreif52l2tkkrqgpoxvcvgcr7k2a2crzmzglgniupd7msdn3bwvgsgoe\n",
    "del /1/Twigs/b/kkkkkkkkkkkkkkkkkkkkkkkkkkkkkkkk4 => no 2 path\n",
    "del /1/Twigs/aa4 => root bafyreigblxm4ou73t5y7lhg3qhkkhdnmdieo2xre6eklwonwvbklsk3zqa\n",
    "set /1/Twigs/aa4 {} => root bafyreibokaudas6aogrzs6g4pp6426iapm7umfe7qrpk7eqdx4nzihfskq\n",
    "del /1 => root bafyreiaarrrt5lafxisuyt3zziuffmex7bayhhqhgwzquaq66p6tatrkka\n",
    "set . [] => root bafyreidwx2fvfdiaox32v2mnn6sxu3j4qoxeqcuenhtgrv5qv6litfnmoe\n",
];

/// The JSON of the first value, and the reply that tells its root.
pub(crate) fn whole() -> Option<(&'static str, &'static str)> {
    EDITS[0].strip_prefix("set . ")?.split_once(" => ")
}

/// A node of the first value, by its number.
pub(crate) fn node(alloc: Global, number: usize) -> Option<Vec<u8>> {
    decode(alloc, *NODES.get(number)?).ok()
}

/// A store that holds the first value, but for the node with a number, and whose gets and puts with these numbers fail.
pub(crate) fn store_without(
    alloc: Global,
    number: usize,
    gets: &[u64],
    puts: &[u64],
) -> Option<MemStore> {
    let mut store = MemStore::new(alloc, gets, puts).ok()?;
    store.add(&decode(alloc, ROOT).ok()?).ok()?;
    for i in 0..COUNT {
        if i != number {
            store.add(&node(alloc, i)?).ok()?;
        }
    }
    Some(store)
}

/// After each edit the whole tree of the value is held.
fn all_told(alloc: Global) -> Result<(), &'static str> {
    let acc = compile(alloc, SRC.as_bytes()).ok().ok_or("a schema")?;
    let mut doc = doc_of(alloc, &acc, "Forest", "80").ok_or("a list")?;
    let mut store = MemStore::new(alloc, &[], &[]).ok().ok_or("a store")?;
    for row in &EDITS {
        let told = is_told(alloc, &mut doc, row, &PadKeys, &mut store);
        if told != Some(true) || !is_whole(alloc, &doc, &mut store) {
            return Err(*row);
        }
    }
    Ok(())
}

#[test]
fn edits_three_deep(rt: HostRuntime) -> Result<(), Fail> {
    all_told(rt.alloc())?;
    Ok(())
}
