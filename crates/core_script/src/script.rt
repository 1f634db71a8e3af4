//! A script: the actions of the second core, in order.

ghost use Rattle.std.specs.Prelude.{◌≡◌, ◌≤◌, ◌<◌, [], length, slice_get, IfOk, IfErr, OnOk, Ok, Some};
ghost use Rattle.pipe_ends.specs.Words.{words_of};
ghost use Rattle.core_script.specs.Action.{IsInBounds, sectors_in_all};
ghost use Rattle.core_script.specs.ScriptText.{IsRefusedAt, IsScriptOrMemory, after_line, joined, script_of_text};

use crate::action::Action;
use crate::line::action_of;
use crate::refusal::{ScriptNo, ScriptWhy};
use pipe_ends::{is_skipped, next_line};
use std::alloc::Global;
use std::marker::Model;

/// The actions of the second core, in order: at most 4,096, which erase at most 65,536 sectors.
#[derive(Drop)]
pub struct Script {
    actions: Vec<Action>,
    /// How many sectors the actions erase.
    sectors: u32,
}

// Clauses see the actions.
impl Model for Script {
    ghost use Rattle.std.specs.Prelude.{List};
    ghost use Rattle.core_script.specs.declared.action.Action.{Action as Shown};
    ghost use Rattle.core_script.specs.Action.{IsWithin};

    ghost Value = { List Shown };

    ghost view = { λ s. s.actions.items };

    ghost invariant = { λ s. IsWithin s.actions.items s.sectors };
}

impl Script {
    /// The script that a text means, or the first reason why it means none.
    pub fn read(alloc: Global, text: &[u8]) -> Result<Script, ScriptNo>
        ensures exact { IsScriptOrMemory result (script_of_text text.now) }
    {
        let mut script = Script::empty(alloc);
        let mut number = 0;
        let mut left = text;
        while let Some((line, rest)) = next_line(left) {
            number += 1;
            script.add(alloc, number, line)?;
            left = rest;
        }
        Ok(script)
    }

    /// A script without an action.
    fn empty(alloc: Global) -> Script
        ensures exact { result ≡ [] }
    {
        Script {
            actions: Vec::new(alloc),
            sectors: 0,
        }
    }

    /// Takes the line of this number.
    #[tactic(auto, unfolding(crate::specs::ScriptText::after_line))]
    fn add(&mut self, alloc: Global, number: u64, line: &[u8]) -> Result<(), ScriptNo>
        ensures ok { OnOk result (after_line self.old (words_of line.now) ≡ Ok self.new) }
        ensures err { IfErr result (IsRefusedAt number
            (after_line self.old (words_of line.now))) }
    {
        if is_skipped(line) {
            return Ok(());
        }
        let action = action_of(alloc, number, line)?;
        self.push(number, action)
    }

    /// Takes the action of the line of this number.
    #[tactic(auto, unfolding(crate::specs::ScriptText::joined))]
    fn push(&mut self, number: u64, action: Action) -> Result<(), ScriptNo>
        requires { IsInBounds action }
        ensures ok { OnOk result (joined self.old action ≡ Ok self.new) }
        ensures err { IfErr result (IsRefusedAt number (joined self.old action)) }
    {
        if self.actions.len() >= 4096 {
            return Err(ScriptNo::Bad {
                line: number,
                why: ScriptWhy::TooMany,
            });
        }
        let sectors = self.sectors + action.sectors();
        if sectors > 65536 {
            return Err(ScriptNo::Bad {
                line: number,
                why: ScriptWhy::TooMuch,
            });
        }
        if self.actions.push(action).is_err() {
            return Err(ScriptNo::Memory);
        }
        self.sectors = sectors;
        Ok(())
    }

    /// How many actions there are.
    pub fn len(&self) -> u32
        ensures exact { result ≡ length self.now }
        ensures most { result ≤ 4096 }
        ensures sectors { sectors_in_all self.now ≤ 65536 }
    {
        self.actions.len() as u32
    }

    /// The action of this number, from 0.
    pub fn action(&self, i: u32) -> Action
        requires { i < length self.now }
        ensures exact { slice_get self.now i ≡ Some result }
        ensures bounds { IsInBounds result }
    {
        self.actions[i as usize].copy()
    }
}
