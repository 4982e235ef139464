//! A script as a whole.
ghost use Rattle.std.specs.Prelude.{◌≡◌, [], ◌∷◌, map, Ok, MatchResult, MatchOption};
ghost use Rattle.script.specs.Lines.{line_of};
ghost use Rattle.script.specs.Script.{told, script_of, said_by, Explains};

use crate::command::Step;
use crate::fault::{Refusal, ScriptError};
use crate::lines::{LineError, read_line};
use std::alloc::Global;

/// What the line of a number asks for, if it is not skipped.
fn read_step(heap: Global, number: usize, line: &[u8]) -> Result<Option<Step>, ScriptError>
    ensures { MatchResult result (λ o. MatchOption o (told number (line_of line.now) ≡ Ok []) (λ step. told number (line_of line.now) ≡ Ok (said_by step ∷ []))) (λ e. Explains e (told number (line_of line.now))) }
{
    match read_line(heap, line) {
        Ok(command) => Ok(command.map(|command| Step { number, command })),
        Err(LineError::Memory) => Err(ScriptError::Memory),
        Err(LineError::Refused { read, expected }) => Err(ScriptError::Line(Refusal {
            number,
            read,
            expected,
        })),
    }
}

/// What a script asks for, line by line; or the first line that is wrong.
pub fn read_script(heap: Global, text: &[u8]) -> Result<Vec<Step>, ScriptError>
    ensures { MatchResult result (λ steps. script_of text.now ≡ Ok (map said_by steps.items)) (λ e. Explains e (script_of text.now)) }
{
    let mut steps = Vec::new(heap);
    for (before, line) in text.split(|b| *b == b'\n').enumerate() {
        if let Some(step) = read_step(heap, before + 1, line)? {
            steps.push(step)?;
        }
    }
    Ok(steps)
}
