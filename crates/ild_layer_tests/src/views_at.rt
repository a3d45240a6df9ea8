//! What views show of a value, and where paths lead in it. The blocks and what stands in them come from a plain encoder that knows
//! nothing of schemas (tests/views/rows.py).
use crate::asked::all_so;
use std::test::Fail;

pub(crate) const SRC: &str =
    "type S struct { i Int s String t Bool y Bytes l Link n nullable Int o optional String d Int (implicit \
     4) } type L [nullable Int] type T struct { a Int b optional Int c optional L } representation tuple \
     type M {String:L} type P {String:Int} representation listpairs type Q {String:String} representation \
     stringpairs { innerDelim \"=\" entryDelim \"&\" } type H {String:Int} representation advanced HAMT type \
     E enum { | x | y (\"why\") } type J struct { a E b String } representation stringjoin { join \":\" } \
     type K struct { a String b optional String d String (implicit \"x\") } representation stringpairs { \
     innerDelim \"=\" entryDelim \"&\" } type R struct { a Int b Int (implicit 1) } representation listpairs \
     type N union { | S \"s\" | Int \"int\" } representation keyed type I struct { n Int } type V union { \
     | I \"i\" } representation inline { discriminantKey \"k\" } type U unit representation null type A any \
     type W struct { h H e E }";

const PARTS: [&str; 23] = [
    "S a6616924616cd82a582500017112200000000000000000000000000000000000000000000000000000000000000000616ef661736268696174f56179420102 paths\n\
     . parts 7\n\
     /i int -5\n\
     /s text hi\n\
     /t bool true\n\
     /y bytes 0102\n\
     /l link 017112200000000000000000000000000000000000000000000000000000000000000000\n\
     /n null\n\
     /o nowhere 0\n\
     /d int 4\n\
     /x nowhere 0\n\
     /i/i nowhere 1",
    "S a8616409616907616cd82a582500017112200000000000000000000000000000000000000000000000000000000000000000616e03616f637965736173606174f4617940 paths\n\
     . parts 8\n\
     /o text yes\n\
     /d int 9",
    "T 8101 paths\n\
     . parts 1\n\
     /b nowhere 0",
    "T 8301028203f6 paths\n\
     . parts 3\n\
     /c parts 2\n\
     /c/0 int 3\n\
     /c/1 null\n\
     /c/2 nowhere 1\n\
     /c/00 nowhere 1",
    "M a0 paths\n\
     . parts 0",
    "M a26162806261618101 paths\n\
     . parts 2\n\
     /b parts 0\n\
     /aa/0 int 1\n\
     /a nowhere 0",
    "P 828261620182616102 paths\n\
     . parts 2\n\
     /a int 2",
    "Q 66623d3126613d paths\n\
     . parts 2\n\
     /a text ",
    "Q 60 paths\n\
     . parts 0",
    "H a36468616d748258200000000000000000000000000000000000000000000000000000000000000000806768617368416c67126a6275636b657453697a6503 paths\n\
     . hamt\n\
     /a enter 0",
    "J 657768793a7a paths\n\
     . parts 2\n\
     /a enum y\n\
     /b text z",
    "K 63613d31 paths\n\
     . parts 2\n\
     /d text x",
    "K 6b613d3126623d3226643d33 paths\n\
     . parts 3\n\
     /d text 3",
    "R 8182616101 paths\n\
     . parts 2\n\
     /b int 1",
    "R 828261610182616202 paths\n\
     /b int 2",
    "N a163696e7405 paths\n\
     . union Int\n\
     /Int int 5\n\
     /I nowhere 0",
    "V a2616b6169616e02 paths\n\
     . union I\n\
     /I parts 1\n\
     /I/n int 2\n\
     /I/k nowhere 1",
    "E 63776879 paths\n\
     . enum y",
    "U f6 paths\n\
     . unit\n\
     /a nowhere 0",
    "A 03 paths\n\
     . int 3",
    "A 82f6a16161d82a582500017112200000000000000000000000000000000000000000000000000000000000000000 paths\n\
     . parts 2\n\
     /0 null\n\
     /1 parts 1\n\
     /1/a link 017112200000000000000000000000000000000000000000000000000000000000000000\n\
     /1/a/b nowhere 2",
    "A a161304178 paths\n\
     /0 bytes 78",
    "W a2616561786168a36468616d748258200000000000000000000000000000000000000000000000000000000000000000806768617368416c67126a6275636b657453697a6503 paths\n\
     /h/k/z enter 1\n\
     /e enum x",
];

#[test]
fn of_parts(rt: HostRuntime) -> Result<(), Fail> {
    all_so(rt.alloc(), SRC, &PARTS)?;
    Ok(())
}
