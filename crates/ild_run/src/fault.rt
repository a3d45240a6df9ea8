//! The faults that end a call before its lines, and their texts.
ghost use Rattle.std.specs.Prelude.{◌≡◌, ◌≤◌, ◌++◌, ◌∷◌, [], IfOk, OnOk, OnErr, IsErrOf, codes};
ghost use Rattle.ild_data.specs.Spell.{cid_of};
ghost use Rattle.ild_data.specs.CidText.{cid_text_of};
ghost use Rattle.ild_edges.specs.Count.{Rose};
ghost use Rattle.ild_edges.specs.Sink.{Appends, AppendsFront};
ghost use Rattle.ild_script_session.specs.declared.cut.Cut.TheVariants as cut;
ghost use Rattle.ild_run.specs.Fault.{status_of, block_text, input_text, schema_text, value_text, fault_text};

use crate::Status;
use ild_cbor::BlockWhy;
use ild_compile::SchemaFault;
use ild_data::{BlockId, Octets};
use ild_edges::Sink;
use ild_run_create::Refusal;
use ild_script_session::{Cut, write};
use std::alloc::{AllocError, Global};

/// What an input is for.
#[derive(Clone, Copy)]
pub enum Role {
    Schema,
    Next,
    Script,
    Value,
    Proof,
}

/// What is wrong with an input.
#[derive(Clone, Copy)]
pub enum Trouble {
    Failed,
    Absent,
    Long,
}

/// Why a call ends before its lines.
#[derive(Clone, Copy)]
pub enum Fault {
    Words,
    Schema(SchemaFault),
    Input(Role, Trouble),
    Store,
    Clash(BlockId),
    Memory,
    Value(Refusal),
    Proof,
    Root(BlockId, BlockWhy),
}

fn input_text(role: Role, trouble: Trouble) -> &'static [u8]
    ensures { result.now ≡ input_text role trouble }
{
    match (role, trouble) {
        (Role::Schema, Trouble::Failed) => b"fault 5 input schema failed\n",
        (Role::Schema, Trouble::Absent) => b"fault 5 input schema absent\n",
        (Role::Schema, Trouble::Long) => b"fault 5 input schema long\n",
        (Role::Next, Trouble::Failed) => b"fault 5 input next failed\n",
        (Role::Next, Trouble::Absent) => b"fault 5 input next absent\n",
        (Role::Next, Trouble::Long) => b"fault 5 input next long\n",
        (Role::Script, Trouble::Failed) => b"fault 5 input script failed\n",
        (Role::Script, Trouble::Absent) => b"fault 5 input script absent\n",
        (Role::Script, Trouble::Long) => b"fault 5 input script long\n",
        (Role::Value, Trouble::Failed) => b"fault 5 input value failed\n",
        (Role::Value, Trouble::Absent) => b"fault 5 input value absent\n",
        (Role::Value, Trouble::Long) => b"fault 5 input value long\n",
        (Role::Proof, Trouble::Failed) => b"fault 5 input proof failed\n",
        (Role::Proof, Trouble::Absent) => b"fault 5 input proof absent\n",
        (Role::Proof, Trouble::Long) => b"fault 5 input proof long\n",
    }
}

/// The line of a value that is refused. Its number and its name are those of the reply to an edit.
fn value_text(refusal: Refusal) -> &'static [u8]
    ensures { result.now ≡ value_text refusal }
{
    match refusal {
        Refusal::Json => b"fault 9 value 3 json\n",
        Refusal::Mismatch => b"fault 9 value 4 mismatch\n",
        Refusal::Delimiter => b"fault 9 value 5 delimiter\n",
        Refusal::Hole => b"fault 9 value 6 hole\n",
        Refusal::Depth => b"fault 9 value 7 depth\n",
        Refusal::Exhausted => b"fault 9 value 8 exhausted\n",
        Refusal::Size => b"fault 9 value 9 size\n",
    }
}

/// The line of a schema's fault.
fn schema_text(alloc: Global, fault: SchemaFault) -> Result<Octets, AllocError>
    ensures { IfOk result (λ line. line ≡ schema_text fault) }
{
    let mut line = b"fault 3 schema ".to_vec(alloc)?;
    line.extend_from_slice(fault.flaw.text().as_bytes())?;
    line.extend_from_slice(b" at ")?;
    line.extend_from_slice(fault.at.to_string(alloc)?.as_bytes())?;
    line.push(b'\n')?;
    Ok(Octets::from_vec(line))
}

/// What is wrong with a block under a root, before its CID.
fn block_text(why: BlockWhy) -> &'static [u8]
    ensures { result.now ≡ block_text why }
{
    match why {
        BlockWhy::Missing => b"fault 4 root missing ",
        BlockWhy::Cbor(_) => b"fault 4 root cbor ",
        BlockWhy::Shape(_) => b"fault 4 root shape ",
    }
}

/// A line that ends with the CID of a block.
fn cid_line(alloc: Global, words: &[u8], id: BlockId) -> Result<Octets, AllocError>
    ensures { IfOk result (λ line. line ≡ words.now ++ (cid_text_of (cid_of id.0) ++ 10 ∷ [])) }
{
    let cid = id.text(alloc)?;
    let mut line = words.to_vec(alloc)?;
    line.extend_from_slice(cid.as_str().as_bytes())?;
    line.push(b'\n')?;
    Ok(Octets::from_vec(line))
}

impl Fault {
    /// The status of a call that ends so.
    pub fn status(self) -> Status
        ensures { result ≡ status_of self }
    {
        match self {
            Fault::Words => Status::Words,
            Fault::Schema(_) => Status::Schema,
            Fault::Input(_, _) => Status::Input,
            Fault::Store | Fault::Clash(_) => Status::StoreFault,
            Fault::Memory => Status::Memory,
            Fault::Value(_) | Fault::Proof => Status::Value,
            Fault::Root(_, _) => Status::Root,
        }
    }
}

/// Writes a line that ends with the CID of a block.
fn write_cid_line<W: Sink>(alloc: Global, words: &[u8], id: BlockId, out: &mut W) -> Result<(), Cut>
    ensures ok { OnOk result (Appends (W.output out.old).written (W.output out.new).written (words.now ++ (cid_text_of (cid_of id.0) ++ 10 ∷ []))) }
    ensures err { OnErr result (AppendsFront (W.output out.old).written (W.output out.new).written (words.now ++ (cid_text_of (cid_of id.0) ++ 10 ∷ []))) }
    ensures faults { (W.output out.old).faults ≤ (W.output out.new).faults }
    ensures sink { IsErrOf result cut.Sink → Rose (W.output out.old).faults (W.output out.new).faults }
{
    match cid_line(alloc, words, id) {
        Ok(line) => write(out, line.as_slice()),
        Err(_) => Err(Cut::Memory),
    }
}

/// Writes the line of a fault. Where it names neither an offset nor a block, no memory is taken.
pub fn write_fault<W: Sink>(alloc: Global, fault: Fault, out: &mut W) -> Result<(), Cut>
    ensures ok { OnOk result (Appends (W.output out.old).written (W.output out.new).written (fault_text fault)) }
    ensures err { OnErr result (AppendsFront (W.output out.old).written (W.output out.new).written (fault_text fault)) }
    ensures faults { (W.output out.old).faults ≤ (W.output out.new).faults }
    ensures sink { IsErrOf result cut.Sink → Rose (W.output out.old).faults (W.output out.new).faults }
{
    match fault {
        Fault::Words => write(out, b"fault 2 words\n"),
        Fault::Schema(fault) => match schema_text(alloc, fault) {
            Ok(line) => write(out, line.as_slice()),
            Err(_) => Err(Cut::Memory),
        },
        Fault::Input(role, trouble) => write(out, input_text(role, trouble)),
        Fault::Store => write(out, b"fault 6 store\n"),
        Fault::Clash(id) => write_cid_line(alloc, b"fault 6 clash ", id, out),
        Fault::Memory => write(out, b"fault 8 memory\n"),
        Fault::Value(refusal) => write(out, value_text(refusal)),
        Fault::Proof => write(out, b"fault 9 value 16 proof\n"),
        Fault::Root(id, why) => write_cid_line(alloc, block_text(why), id, out),
    }
}
