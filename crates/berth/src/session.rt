//! A script's run: the settings in force, and one command after another.
ghost use Rattle.std.specs.Prelude.{◌≡◌, [], ◌++◌, map, length, string_bytes, IfOk, Some, MatchResult, OnOk};
ghost use Rattle.script.specs.Lines.{order_of};
ghost use Rattle.address.specs.Resolve.{outcome_of};
ghost use Rattle.berth.specs.Answers.{line_for, answer_line};
ghost use Rattle.script.specs.Script.{said_by, script_of, Explains};
ghost use Rattle.berth.specs.Settings.{settings_of, settled_by, answer_to, unset, answers_to, answers_of};

use crate::answers::Answer;
use address::{ResolveFault, resolve};
use script::{Command, ScriptError, Step, read_script};
use std::alloc::{AllocError, Global};

/// The most room that is lent for an answer, whatever the script says: no address is longer,
/// so more room changes no answer, and a script cannot ask for all memory.
const MOST_ROOM: usize = 512;

/// The settings in force, both empty at first.
#[derive(Drop)]
pub struct Session {
    pub base: Vec<u8>,
    pub directory: Vec<u8>,
}

impl Session {
    pub(crate) fn new(heap: Global) -> Session
        ensures base { result.base.items ≡ [] }
        ensures directory { result.directory.items ≡ [] }
    {
        Session {
            base: Vec::new(heap),
            directory: Vec::new(heap),
        }
    }

    /// Resolves an address into the front of the space, of which `room` bytes are lent, or all if there are fewer.
    fn resolve_into(
        &self,
        room: usize,
        address: &[u8],
        space: &mut [u8],
    ) -> Result<Option<usize>, ResolveFault>
        ensures { length space.old ≡ 512 → line_for result space.new ≡ answer_line (outcome_of address.now self.now.base.items self.now.directory.items) room }
    {
        let lent = room.min(space.len());
        resolve(address, &self.base, &self.directory, &mut space[0..lent])
    }

    /// Answers a resolve call.
    fn answer(&self, room: usize, address: &[u8], out: &mut String) -> Result<(), AllocError>
        ensures { OnOk result (string_bytes out.new ≡ string_bytes out.old ++ answer_line (outcome_of address.now self.now.base.items self.now.directory.items) room) }
    {
        let mut space = [0u8; MOST_ROOM];
        let found = self.resolve_into(room, address, &mut space);
        let answer = Answer::new(found, &space);
        write!(out, "{answer}")
    }

    /// Runs a command, and puts its answer, if it is a call, behind what `out` holds.
    pub(crate) fn run(&mut self, command: Command, out: &mut String) -> Result<(), AllocError>
        ensures settings { settings_of self.new ≡ settled_by (order_of command) (settings_of self.old) }
        ensures answers { OnOk result (string_bytes out.new ≡ string_bytes out.old ++ answer_to (order_of command) (settings_of self.old)) }
    {
        match command {
            Command::Base(base) => self.base = base,
            Command::Directory(directory) => self.directory = directory,
            Command::Resolve { room, address } => self.answer(room, &address, out)?,
        }
        Ok(())
    }
}

/// Answers the steps of a script, in order.
pub(crate) fn answer_steps(heap: Global, steps: Vec<Step>) -> Result<String, AllocError>
    ensures { IfOk result (λ out. string_bytes out ≡ answers_to unset (map said_by steps.items)) }
{
    let mut session = Session::new(heap);
    let mut out = String::new(heap);
    for step in steps {
        session.run(step.command, &mut out)?;
    }
    Ok(out)
}

/// Answers a script; where a line of it is wrong, nothing is answered.
pub(crate) fn answer_script(heap: Global, text: &[u8]) -> Result<String, ScriptError>
    ensures { MatchResult result (λ out. answers_of (script_of text.now) ≡ Some (string_bytes out)) (λ e. Explains e (script_of text.now)) }
{
    let steps = read_script(heap, text)?;
    Ok(answer_steps(heap, steps)?)
}
