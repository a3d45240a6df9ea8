//! Inputs in memory, with takes that fail by number.
ghost use Rattle.std.specs.Prelude.{◌≡◌, ◌≢◌, ◌↔◌, ◌∷◌, [], map, option_map, Contains, IfOk, OnOk, OnErr};
ghost use Rattle.ild_edges.specs.Count.{bumped};
ghost use Rattle.ild_edges.specs.Inputs.{Takes, file_at};

use crate::due::is_due;
use crate::{EdgeErr, Inputs, LONGEST_INPUT, Taken};
use ild_data::{Octets, Txt};
use std::alloc::{AllocError, Global};

/// A file.
#[derive(Drop)]
pub struct File {
    name: Txt,
    bytes: Octets,
}

/// Inputs in memory, which tell their files. The takes whose numbers, from 1 on, stand in their list fail, and no other.
#[derive(Drop)]
pub struct MemInputs {
    files: Vec<File>,
    fails: Vec<u64>,
    takes: u64,
    lacks: u64,
    faults: u64,
}

/// The bytes of the first file of a name.
fn file_of<'f>(files: &'f [File], name: &str) -> Option<&'f Octets>
    ensures { option_map (λ b. b.now) result ≡ file_at (map (λ f. (f.name, f.bytes)) files.now) name.now }
{
    for file in files {
        if file.name.as_str() == name {
            return Some(&file.bytes);
        }
    }
    None
}

impl MemInputs {
    ghost use Rattle.ild_edges.specs.MemInputs.{inputs_state, new_inputs};

    /// Inputs with no file.
    pub fn new(alloc: Global, fails: &[u64]) -> Result<MemInputs, AllocError>
        ensures { IfOk result (λ inputs. inputs_state inputs ≡ new_inputs fails.now) }
    {
        Ok(MemInputs {
            files: Vec::new(alloc),
            fails: fails.to_vec(alloc)?,
            takes: 0,
            lacks: 0,
            faults: 0,
        })
    }

    /// Sets the file of a name. It hides the one that was set before under the name.
    pub fn add(&mut self, name: &str, bytes: &[u8]) -> Result<(), AllocError>
        ensures ok { OnOk result (inputs_state self.new ≡ record (inputs_state self.old) { files = (name.now, bytes.now) ∷ (inputs_state self.old).files }) }
        ensures err { OnErr result (inputs_state self.new ≡ inputs_state self.old) }
    {
        let alloc = *self.files.allocator();
        let name = Txt::of(alloc, name)?;
        let bytes = Octets::of(alloc, bytes)?;
        self.files.insert(0, File { name, bytes })?;
        Ok(())
    }
}

impl Inputs for MemInputs {
    ghost use Rattle.ild_edges.specs.MemInputs.{inputs_state, supply_of, after_take};

    ghost supply = { λ m. supply_of (inputs_state m) };

    fn take(&mut self, name: &str) -> Result<Taken, EdgeErr>
        ensures takes { Takes (supply_of (inputs_state self.old)) name.now result (supply_of (inputs_state self.new)) }
        ensures left { inputs_state self.new ≡ after_take (inputs_state self.old) result }
        ensures due { (result ≡ Err EdgeErr.Failed) ↔ Contains (inputs_state self.old).fails (bumped (inputs_state self.old).takes) }
        ensures never { (inputs_state self.old).fails ≡ [] → result ≢ Err EdgeErr.Failed }
    {
        self.takes = self.takes.saturating_add(1);
        if is_due(&self.fails, self.takes) {
            self.faults = self.faults.saturating_add(1);
            return Err(EdgeErr::Failed);
        }
        let Some(bytes) = file_of(&self.files, name) else {
            self.lacks = self.lacks.saturating_add(1);
            return Ok(Taken::Absent);
        };
        if bytes.as_slice().len() <= LONGEST_INPUT {
            Ok(Taken::Bytes(bytes.copy()?))
        } else {
            self.lacks = self.lacks.saturating_add(1);
            Ok(Taken::Long)
        }
    }
}
