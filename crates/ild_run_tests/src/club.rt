//! The worked script on a club, and one on a club whose users stand in a node of their own: each take, get, put and write fails in turn. What is
//! told then is that of tests/paths/rows.py, which passes over the line that met the failing call.
use crate::sessions::{Call, Session, each_take, each_write, in_turn};
use std::test::Fail;

const CLUB: &str =
    "type Club struct { name String users Users motto optional String } type Users {String:User} representation advanced HAMT type User struct { mail String role Role age nullable Int nick option\
        al String avatar optional Bytes contact Contact } type Role enum { | Admin (\"a\") | Guest (\"g\") } type Contact union { | Phone \"phone\" | Room \"room\" } representation keyed type Phone \
        string type Room struct { floor Int door Int } representation tuple";

const KITE: Session = Session {
    schema: CLUB,
    ty: "Club",
    root: "bafyreiesgggcrklipbihjnvb5gjagpj2ajmzgdgfqcgm4ts43mcxhfeziq",
    blocks: "a2646e616d65644b697465657573657273a36468616d748258200000000000000000000000000000000000000000000000000000000000000000806768617368416c67126a6275636b657453697a6503\n",
    script: "set /users/ann {\"mail\":\"ann@x\",\"role\":\"Admin\",\"age\":null,\"avatar\":{\"/\":{\"bytes\":\"AQI\"}},\"contact\":{\"Phone\":\"12\"}}\n\
     get /users/ann/role\n\
     rep /users/ann\n\
     set /users/bob {\"mail\":\"bob@x\",\"role\":\"Guest\",\"age\":41,\"contact\":{\"Room\":{\"floor\":2,\"door\":7}}}\n\
     get /users/bob/contact\n\
     rep /users/bob/contact\n\
     set /users/bob/contact/Phone \"34\"\n\
     len /users\n\
     del /users/ann/avatar\n\
     walk /users/ann\n\
     del /users/ann\n\
     has /users/ann\n\
     get /users\n\
     get /name\n\
     set /users/bob/role \"Owner\"\n\
     del /users/bob/mail\n\
     del /motto\n",
    replies: "root bafyreifvr4si7ylqf2wsaoenuteou64qnkd4oscjcm2hgfvkvxay7y3vde\n\
     ok \"Admin\"\n\
     ok {\"age\":null,\"avatar\":{\"/\":{\"bytes\":\"AQI\"}},\"contact\":{\"phone\":\"12\"},\"mail\":\"ann@x\",\"role\":\"a\"}\n\
     root bafyreidnkadpa5xfa55hmjn2hxir5zsgi5ipzesi3ilivdfz422zptdynq\n\
     ok {\"Room\":{\"door\":7,\"floor\":2}}\n\
     ok {\"room\":[2,7]}\n\
     root bafyreierghhwqht3jn53cc4lpqk7ydolhl66ha2xrqjrnoa5laklwzzzqy\n\
     ok 2\n\
     root bafyreiewzahzumdqt6pztbt5fpj2pw33b57p6opche4wmkm4iz6au7lk6q\n\
     ok [[\"mail\",\"ann@x\"],[\"role\",\"Admin\"],[\"age\",null],[\"contact\",{\"Phone\":\"12\"}]]\n\
     root bafyreia5yd7vqco53c3jzup2ngpfz3ijsxpv55gih6ze7nlyctmyv2jq4i\n\
     ok false\n\
     ok {\"bob\":{\"age\":41,\"contact\":{\"Phone\":\"34\"},\"mail\":\"bob@x\",\"role\":\"Guest\"}}\n\
     ok \"Kite\"\n\
     no 4 mismatch\n\
     no 4 mismatch\n\
     no 2 path\n",
};

const KITE_EDITS: [&str; 5] = [
    "no 12 store\n\
     no 2 path\n\
     no 2 path\n\
     root bafyreieyngustbjxpdukdk56swx3pworotjjagh2aulmnan4oxstjgxe5q\n\
     \n\
     \n\
     root bafyreia5yd7vqco53c3jzup2ngpfz3ijsxpv55gih6ze7nlyctmyv2jq4i\n\
     ok 1\n\
     no 2 path\n\
     no 2 path\n\
     no 2 path\n",
    "\n\
     \n\
     \n\
     no 12 store\n\
     no 2 path\n\
     no 2 path\n\
     no 2 path\n\
     ok 1\n\
     root bafyreideazm55pgdajtfe6mlimhf7eecu25bby2i7vvbe6ayd2f6v7m65a\n\
     \n\
     root bafyreiesgggcrklipbihjnvb5gjagpj2ajmzgdgfqcgm4ts43mcxhfeziq\n\
     \n\
     ok {}\n\
     \n\
     no 2 path\n\
     no 2 path\n",
    "\n\
     \n\
     \n\
     \n\
     \n\
     \n\
     no 12 store\n\
     \n\
     root bafyreidec6mmxbe5yoxw3kcra3pwz7yjpgw7lh5zrp2pmx5qxegrz2odbu\n\
     \n\
     root bafyreieyngustbjxpdukdk56swx3pworotjjagh2aulmnan4oxstjgxe5q\n\
     \n\
     ok {\"bob\":{\"age\":41,\"contact\":{\"Room\":{\"door\":7,\"floor\":2}},\"mail\":\"bob@x\",\"role\":\"Guest\"}}\n",
    "\n\
     \n\
     \n\
     \n\
     \n\
     \n\
     \n\
     \n\
     no 12 store\n\
     ok [[\"mail\",\"ann@x\"],[\"role\",\"Admin\"],[\"age\",null],[\"avatar\",{\"/\":{\"bytes\":\"AQI\"}}],[\"contact\",{\"Phone\":\"12\"}]]\n",
    "\n\
     \n\
     \n\
     \n\
     \n\
     \n\
     \n\
     \n\
     \n\
     \n\
     no 12 store\n\
     ok true\n\
     ok {\"ann\":{\"age\":null,\"contact\":{\"Phone\":\"12\"},\"mail\":\"ann@x\",\"role\":\"Admin\"},\"bob\":{\"age\":41,\"contact\":{\"Phone\":\"34\"},\"mail\":\"bob@x\",\"role\":\"Guest\"}}\n",
];

const CROWD: Session = Session {
    schema: CLUB,
    ty: "Club",
    root: "bafyreia4ytmx7uztpktysysfmu257yjc7fdxtlpfd2gkcvbfpzek4lllme",
    blocks: "a2646e616d65644b697465657573657273a36468616d74825820000000000000000000000000000000000000000000000000000000100000000081d82a5825000171122084f2ba7c04639999219bceecdd6ba7ed534ab541dbf67244badf6a\
     2b367d9f916768617368416c67126a6275636b657453697a6503\n\
     8258205000000000000000004000000000000000000010000000000000000000000000848182446b313436a463616765f6646d61696c666b313436407864726f6c65616767636f6e74616374a16570686f6e6561318182446b313133a46361\
     6765f6646d61696c666b313133407864726f6c65616767636f6e74616374a16570686f6e6561318182446b313332a463616765f6646d61696c666b313332407864726f6c65616767636f6e74616374a16570686f6e6561318182446b313230\
     a463616765f6646d61696c666b313230407864726f6c65616767636f6e74616374a16570686f6e656131\n",
    script: "get /users/k113/role\n\
     len /users\n\
     set /users/k120/age 7\n\
     has /users/k120/nick\n\
     rep /users/k146\n\
     del /users/k132\n\
     walk /users\n\
     root\n",
    replies: "ok \"Guest\"\n\
     ok 4\n\
     root bafyreib4kwdnivb4ks5kzq3yhfwmxcjyf4exfvi5neatamoysov7yfadei\n\
     ok false\n\
     ok {\"age\":null,\"contact\":{\"phone\":\"1\"},\"mail\":\"k146@x\",\"role\":\"g\"}\n\
     root bafyreiciymujmelicty3gl43isz5kwcoo4k6yamlz2whqqleg2yjvgitiq\n\
     ok [[\"k113\",{\"age\":null,\"contact\":{\"Phone\":\"1\"},\"mail\":\"k113@x\",\"role\":\"Guest\"}],[\"k120\",{\"age\":7,\"contact\":{\"Phone\":\"1\"},\"mail\":\"k120@x\",\"role\":\"Guest\"}]\
     ,[\"k146\",{\"age\":null,\"contact\":{\"Phone\":\"1\"},\"mail\":\"k146@x\",\"role\":\"Guest\"}]]\n\
     root bafyreiciymujmelicty3gl43isz5kwcoo4k6yamlz2whqqleg2yjvgitiq\n",
};

const CROWD_EDITS: [&str; 2] = [
    "\n\
     \n\
     no 12 store\n\
     \n\
     \n\
     root bafyreiaxeaarardjqyngeyitsd7w2tn46xtkpfnhp2l3q7egisyqtq7zz4\n\
     ok [[\"k113\",{\"age\":null,\"contact\":{\"Phone\":\"1\"},\"mail\":\"k113@x\",\"role\":\"Guest\"}],[\"k120\",{\"age\":null,\"contact\":{\"Phone\":\"1\"},\"mail\":\"k120@x\",\"role\":\"Guest\
     \"}],[\"k146\",{\"age\":null,\"contact\":{\"Phone\":\"1\"},\"mail\":\"k146@x\",\"role\":\"Guest\"}]]\n\
     root bafyreiaxeaarardjqyngeyitsd7w2tn46xtkpfnhp2l3q7egisyqtq7zz4\n",
    "\n\
     \n\
     \n\
     \n\
     \n\
     no 12 store\n\
     ok [[\"k113\",{\"age\":null,\"contact\":{\"Phone\":\"1\"},\"mail\":\"k113@x\",\"role\":\"Guest\"}],[\"k120\",{\"age\":7,\"contact\":{\"Phone\":\"1\"},\"mail\":\"k120@x\",\"role\":\"Guest\"}]\
     ,[\"k132\",{\"age\":null,\"contact\":{\"Phone\":\"1\"},\"mail\":\"k132@x\",\"role\":\"Guest\"}],[\"k146\",{\"age\":null,\"contact\":{\"Phone\":\"1\"},\"mail\":\"k146@x\",\"role\":\"Guest\"}]\
     ]\n\
     root bafyreib4kwdnivb4ks5kzq3yhfwmxcjyf4exfvi5neatamoysov7yfadei\n",
];

const CROWD_LINES: [&str; 6] = [
    "no 12 store\n",
    "\n\
     no 12 store\n",
    "\n\
     \n\
     no 12 store\n\
     \n\
     \n\
     root bafyreiaxeaarardjqyngeyitsd7w2tn46xtkpfnhp2l3q7egisyqtq7zz4\n\
     ok [[\"k113\",{\"age\":null,\"contact\":{\"Phone\":\"1\"},\"mail\":\"k113@x\",\"role\":\"Guest\"}],[\"k120\",{\"age\":null,\"contact\":{\"Phone\":\"1\"},\"mail\":\"k120@x\",\"role\":\"Guest\
     \"}],[\"k146\",{\"age\":null,\"contact\":{\"Phone\":\"1\"},\"mail\":\"k146@x\",\"role\":\"Guest\"}]]\n\
     root bafyreiaxeaarardjqyngeyitsd7w2tn46xtkpfnhp2l3q7egisyqtq7zz4\n",
    "\n\
     \n\
     \n\
     no 12 store\n",
    "\n\
     \n\
     \n\
     \n\
     no 12 store\n",
    "\n\
     \n\
     \n\
     \n\
     \n\
     no 12 store\n\
     ok [[\"k113\",{\"age\":null,\"contact\":{\"Phone\":\"1\"},\"mail\":\"k113@x\",\"role\":\"Guest\"}],[\"k120\",{\"age\":7,\"contact\":{\"Phone\":\"1\"},\"mail\":\"k120@x\",\"role\":\"Guest\"}]\
     ,[\"k132\",{\"age\":null,\"contact\":{\"Phone\":\"1\"},\"mail\":\"k132@x\",\"role\":\"Guest\"}],[\"k146\",{\"age\":null,\"contact\":{\"Phone\":\"1\"},\"mail\":\"k146@x\",\"role\":\"Guest\"}]\
     ]\n\
     root bafyreib4kwdnivb4ks5kzq3yhfwmxcjyf4exfvi5neatamoysov7yfadei\n",
];

#[test]
fn each_take_and_each_write_fail(rt: HostRuntime) -> Result<(), Fail> {
    let takes = each_take(rt.alloc(), &KITE);
    assert!(rt; takes == Some(true) && each_write(rt.alloc(), &KITE) == Some(true));
    Ok(())
}

#[test]
fn each_get_and_each_put_fail(rt: HostRuntime) -> Result<(), Fail> {
    in_turn(rt.alloc(), &KITE, Call::Get, 1, &[])?;
    in_turn(rt.alloc(), &KITE, Call::Put, 0, &KITE_EDITS)?;
    Ok(())
}

/// The root block and the node beneath it are got before the first line.
#[test]
fn each_get_and_each_put_of_a_node_fail(rt: HostRuntime) -> Result<(), Fail> {
    in_turn(rt.alloc(), &CROWD, Call::Get, 2, &CROWD_LINES)?;
    in_turn(rt.alloc(), &CROWD, Call::Put, 0, &CROWD_EDITS)?;
    Ok(())
}
