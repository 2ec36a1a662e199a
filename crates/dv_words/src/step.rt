//! One word more.
ghost use Rattle.std.specs.Prelude.{◌≡◌, IfOk};
ghost use Rattle.dv_words.specs.Stepping.{changed, step};
ghost use Rattle.dv_words.specs.Settings.{reads};
ghost use Rattle.dv_words.specs.declared.tool.Tool.TheVariants.{Dvips};
ghost use Rattle.dv_words.specs.Tools.{grammar, takes_name};
ghost use Rattle.dv_words.specs.Views.{draft_view, state_of};
ghost use Rattle.dv_words.specs.Steps.{StepGives, NameGives};

use crate::draft::Draft;
use crate::opened::find_option;
use crate::setting::Setting;
use crate::tool::{Tool, fronts_of};
use crate::word::{dvi_name, is_option};
use std::alloc::AllocError;

/// What a word was.
#[derive(Clone, Copy)]
pub enum Taken {
    /// No list of words has it here.
    Wrong,
    /// A word that may stand here, and the option whose parameter is the next word, where there is one.
    Right(Option<Setting>),
}

impl Draft {
    /// Takes a file name, and answers whether one may stand here.
    fn take_name(&mut self, tool: Tool, word: &str) -> bool
        ensures { NameGives (takes_name tool word.now (draft_view self.old)) result (draft_view self.new) }
    {
        let Some(name) = dvi_name(word) else {
            return false;
        };
        if self.input.is_none() {
            self.input = Some(name);
            return true;
        }
        if tool == Tool::Dvicopy && self.output.is_none() {
            self.output = Some(name);
            return true;
        }
        false
    }

    /// Takes one word.
    pub fn take(
        &mut self,
        tool: Tool,
        waits: Option<Setting>,
        word: &str,
    ) -> Result<Taken, AllocError>
        ensures { IfOk result (λ taken. StepGives (step (grammar tool) (state_of waits (draft_view self.old)) word.now) taken (draft_view self.new)) }
    {
        if let Some(option) = waits {
            return self.take_parameter(option, word);
        }
        if !is_option(word) {
            if self.take_name(tool, word) {
                return Ok(Taken::Right(None));
            }
            return Ok(Taken::Wrong);
        }
        let Some(found) = find_option(fronts_of(tool), word) else {
            return Ok(Taken::Wrong);
        };
        if !self.stands(found.option) {
            return Ok(Taken::Wrong);
        }
        match found.rest {
            None => Ok(Taken::Right(Some(found.option))),
            Some(parameter) => self.take_parameter(found.option, parameter),
        }
    }

    /// Takes a parameter.
    fn take_parameter(&mut self, option: Setting, word: &str) -> Result<Taken, AllocError>
        ensures { IfOk result (λ taken. StepGives (changed (grammar Dvips) (draft_view self.old) (reads option word.now)) taken (draft_view self.new)) }
    {
        if self.set(option, word)? {
            Ok(Taken::Right(None))
        } else {
            Ok(Taken::Wrong)
        }
    }
}
