//! What views show of values whose blocks were worked out by hand, and where each path to a scalar leads.
use crate::asked::all_so;
use std::test::Fail;

const SRC: &str =
    "type J struct { a String b String } representation stringjoin { join \":\" } type Q \
     {String:String} representation stringpairs { innerDelim \"=\" entryDelim \"&\" } type P \
     {String:Int} representation listpairs type R struct { a Int b String } representation listpairs \
     type T struct { a Int b optional Int c optional Int } representation tuple type I struct { n Int \
     (implicit 0) } type Dot struct { x Int } type Box struct { w Int h Int } type K union { | Dot \
     \"dot\" | Box \"box\" } representation keyed type V union { | Dot \"dot\" | Box \"box\" } \
     representation envelope { discriminantKey \"k\" contentKey \"c\" } type N union { | Dot \"dot\" \
     | Box \"box\" } representation inline { discriminantKey \"k\" } type Raw bytes type X union { | \
     Raw \"01\" } representation bytesprefix type E enum { | No (\"0\") | Yes (\"1\") } \
     representation int type M unit representation emptymap";

const PARTS: [&str; 16] = [
    "J 63783a79 paths\n\
     . parts 2\n\
     /a text x\n\
     /b text y",
    "J 623a79 paths\n\
     /a text \n\
     /b text y",
    "Q 66613d3126623d paths\n\
     . parts 2\n\
     /a text 1\n\
     /b text \n\
     /c nowhere 0",
    "Q 60 paths\n\
     . parts 0",
    "P 828261610282616201 paths\n\
     . parts 2\n\
     /a int 2\n\
     /b int 1",
    "R 82826161018261626178 paths\n\
     /a int 1\n\
     /b text x",
    "T 8101 paths\n\
     . parts 1\n\
     /a int 1\n\
     /b nowhere 0",
    "T 820102 paths\n\
     /b int 2",
    "T 83010203 paths\n\
     /a int 1\n\
     /b int 2\n\
     /c int 3",
    "I a0 paths\n\
     . parts 1\n\
     /n int 0",
    "K a163626f78a2616803617702 paths\n\
     . union Box\n\
     /Box/w int 2\n\
     /Box/h int 3\n\
     /Dot nowhere 0",
    "V a26163a2616803617702616b63626f78 paths\n\
     . union Box\n\
     /Box/w int 2\n\
     /Box/h int 3",
    "N a3616803616b63626f78617702 paths\n\
     . union Box\n\
     /Box/w int 2\n\
     /Box/h int 3\n\
     /Box/k nowhere 1",
    "X 4301aabb paths\n\
     . union Raw\n\
     /Raw bytes aabb",
    "E 01 paths\n\
     . enum Yes",
    "M a0 paths\n\
     . unit\n\
     /a nowhere 0",
];

#[test]
fn of_worked_values(rt: HostRuntime) -> Result<(), Fail> {
    all_so(rt.alloc(), SRC, &PARTS)?;
    Ok(())
}
