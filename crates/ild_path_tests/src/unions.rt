//! Edits of unions in all six forms, and of what they stand in. The blocks were worked out on plain values, by the plain program of the conformance cases.
use crate::block_told::all_so;
use std::test::Fail;

const SRC: &str =
    "type Dot struct { x Int (rename \"y\") } type Box struct { w Int h optional Int } type K union \
     { | Dot \"dot\" | Box \"box\" } representation keyed type E union { | Dot \"dot\" | Box \"box\" \
     } representation envelope { discriminantKey \"t\" contentKey \"c\" } type N union { | Dot \
     \"dot\" | Box \"box\" } representation inline { discriminantKey \"k\" } type B union { | One \
     \"01\" | Two \"02ff\" } representation bytesprefix type One bytes type Two bytes type D union { \
     | Dot map | Int int } representation kinded type L [K] type M {String:N} type Hold union { | E \
     \"e\" | B \"b\" } representation keyed";

const UNIONS: [&str; 19] = [
    "K a163646f74a1617901 set /Box a1617702 => a163626f78a1617702",
    "K a163646f74a1617901 set /Dot/x 05 => a163646f74a1617905",
    "E a26163a1617901617463646f74 set /Box a2616803617702 => a26163a2616803617702617463626f78",
    "E a26163a1617702617463626f78 ins /Box/h 03 => a26163a2616803617702617463626f78",
    "N a3616803616b63626f78617702 set /Dot a1617901 => a2616b63646f74617901",
    "N a3616803616b63626f78617702 del /Box/h => a2616b63626f78617702",
    "B 43010102 set /Two 420102 => 4402ff0102",
    "B 43010102 set /One 40 => 4101",
    "D a1617901 set /Int 20 => 20",
    "D 04 set /Dot a1617901 => a1617901",
    "L 82a163646f74a1617901a163626f78a1617702 set /1/Dot a1617909 => 82a163646f74a1617901a163646f74a1617909",
    "L 81a163646f74a1617901 ins /- a163626f78a1617701 => 82a163646f74a1617901a163626f78a1617701",
    "M a16161a2616b63626f78617702 set /a/Dot a1617901 => a16161a2616b63646f74617901",
    "M a16161a2616b63626f78617702 ins /a/Box/h 08 => a16161a3616808616b63626f78617702",
    "M a16161a2616b63626f78617702 set /b a2616b63646f74617900 => a26161a2616b63626f786177026162a2616b63646f74617900",
    "Hold a16165a26163a1617901617463646f74 set /E/Box a1617702 => a16165a26163a1617702617463626f78",
    "Hold a16165a26163a1617901617463646f74 set /E/Dot/x 1818 => a16165a26163a161791818617463646f74",
    "Hold a16165a26163a1617901617463646f74 set /B 4302ff00 => a161624302ff00",
    "Hold a161624302ff00 set /B/One 4107 => a16162420107",
];

#[test]
fn of_unions(rt: HostRuntime) -> Result<(), Fail> {
    all_so(rt.alloc(), SRC, &UNIONS)?;
    Ok(())
}
