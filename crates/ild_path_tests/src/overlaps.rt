//! Three texts joined in one another, whose innermost part stands beside the outermost joint: an edit of it may spell that joint once more, with
//! the joints between and the letters around it. The blocks and refusals are those of tests/paths/rows.py, which builds each value from scratch.
use crate::block_told::all_so;
use std::test::Fail;

const SRC: &str =
    "type I struct { a String b String } representation stringjoin { join \"ab\" } type M struct { i I c String } representation stringjoin { join \"/\" } type N struct { c String i I } represent\
        ation stringjoin { join \"/\" } type Last struct { n N z String } representation stringjoin { join \"abc\" } type First struct { z String n M } representation stringjoin { join \"cab\" } typ\
        e Same struct { n N z String } representation stringjoin { join \"zz\" } type Long struct { n N z String } representation stringjoin { join \"b/ba\" }";

const OVERLAPS: [&str; 31] = [
    // the joint of the innermost text and the letter that comes behind it spell the outermost joint
    "Last 6a772f7861627961626376 set /n/i/b 626379 => delimiter",
    "Last 6a772f7861627961626376 set /n/i/b 63626379 => 6c772f78616262637961626376",
    "Last 6a772f7861627961626376 set /n/i/b 60 => 69772f78616261626376",
    "Last 6a772f7861627961626376 set /n/i/b 626162 => delimiter",
    "Last 6a772f7861627961626376 set /n/i/a 6163 => 6a772f6361627961626376",
    "Last 6a772f7861627961626376 set /z 6163 => 6a772f7861627961626363",
    "Last 6a772f7861627961626376 set /z 626263 => 6b772f786162796162636263",
    // the letter that comes before the joint of the innermost text spells the outermost joint with it
    "First 6a76636162786162792f77 set /n/i/a 627863 => delimiter",
    "First 6a76636162786162792f77 set /n/i/a 626378 => 6b7663616263786162792f77",
    "First 6a76636162786162792f77 set /n/i/a 60 => 69766361626162792f77",
    "First 6a76636162786162792f77 set /n/i/b 6163 => 6a76636162786162632f77",
    "First 6a76636162786162792f77 set /n/i/b 626361 => 6b7663616278616263612f77",
    "First 6a76636162786162792f77 set /z 627863 => 6b7863636162786162792f77",
    "First 6a76636162786162792f77 set /z 626361 => 6b6361636162786162792f77",
    // the last letter of the innermost part and the first one of the joint spell the joint, one place before it
    "Same 69772f786162797a7a76 set /n/i/b 62797a => delimiter",
    "Same 69772f786162797a7a76 set /n/i/b 627a79 => 6a772f7861627a797a7a76",
    "Same 69772f786162797a7a76 set /n/i/b 617a => delimiter",
    "Same 69772f786162797a7a76 set /n/i/a 617a => 69772f7a6162797a7a76",
    "Same 69772f786162797a7a76 set /z 627a76 => delimiter",
    "Same 69772f786162797a7a76 set /z 62767a => 6a772f786162797a7a767a",
    "Same 69772f786162797a7a76 set /n/c 617a => 697a2f786162797a7a76",
    // joints of all three together spell the outermost one
    "Long 6b772f78616279622f626176 set /n/i/a 6162 => 6b772f62616279622f626176",
    "Long 6b772f78616279622f626176 set /n/i/a 626261 => 6c772f6261616279622f626176",
    "Long 6b772f78616279622f626176 set /n/c 6162 => 6b622f78616279622f626176",
    "Long 6b772f78616279622f626176 set /n/i/b 62622f => delimiter",
    "Long 6b772f78616279622f626176 set /n/i/b 63612f62 => delimiter",
    "Long 6b622f78616279622f626176 set /n/i/a 60 => 6a622f616279622f626176",
    "Long 6b622f78616279622f626176 set /n/i/a 6162 => delimiter",
    "Long 6b622f78616279622f626176 set /n/i/a 626261 => delimiter",
    "Long 6b622f78616279622f626176 set /n/i/a 6161 => 6b622f61616279622f626176",
    "Long 6b622f78616279622f626176 set /n/c 6177 => 6b772f78616279622f626176",
];

#[test]
fn beside_a_joint(rt: HostRuntime) -> Result<(), Fail> {
    all_so(rt.alloc(), SRC, &OVERLAPS)?;
    Ok(())
}
