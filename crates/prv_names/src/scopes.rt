//! What is declared and what is in scope at a place of the text. A block's end cuts the names in scope back to
//! their count where it began, as scopes nest.
ghost use Rattle.std.specs.Prelude.{◌≡◌, length, OnOk};
ghost use Rattle.prv_names.specs.Scopes.{start, after, fault as fault_of};
ghost use Rattle.prv_names.specs.ScopeStacks.{standing_of, IsNested};

use crate::error::NameError;
use crate::names::Names;
use crate::said::Said;
use prv_model::Name;
use std::alloc::{AllocError, Global};

/// What is declared and what is in scope at a place of the text.
#[derive(Drop)]
pub struct Scopes {
    /// The names whose declarations have ended.
    pub declared: Names,
    /// The names in scope here.
    pub visible: Names,
    /// For each open block, the outermost first: how many names were in scope where it began.
    pub starts: Vec<usize>,
}

impl Scopes {
    /// At the beginning of a text.
    pub fn new(alloc: Global) -> Scopes
        ensures here { standing_of result ≡ start }
        ensures nested { IsNested 0 result.starts.items (length result.visible) }
    {
        Scopes {
            declared: Names::new(alloc),
            visible: Names::new(alloc),
            starts: Vec::new(alloc),
        }
    }

    /// What is wrong with what the text says next.
    pub fn fault(&self, said: &Said) -> Option<NameError>
        ensures { result ≡ fault_of (standing_of self.now) said.now }
    {
        match said {
            Said::Declares(x) => {
                if self.declared.has(&x.name) {
                    Some(NameError::Twice { place: x.place })
                } else {
                    None
                }
            }
            Said::Uses(x) => {
                if self.visible.has(&x.name) {
                    None
                } else if self.declared.has(&x.name) {
                    Some(NameError::NotInScope { place: x.place })
                } else {
                    Some(NameError::Unknown { place: x.place })
                }
            }
            _ => None,
        }
    }

    /// Goes on behind what the text says next.
    pub fn go_on(&mut self, alloc: Global, said: &Said) -> Result<(), AllocError>
        requires { IsNested 0 self.old.starts.items (length self.old.visible) }
        ensures here { OnOk result (standing_of self.new ≡ after (standing_of self.old) said.now) }
        ensures nested { OnOk result (IsNested 0 self.new.starts.items (length self.new.visible)) }
    {
        match said {
            Said::Opens => self.open(),
            Said::Closes => {
                self.close();
                Ok(())
            }
            Said::Enters(x) => self.enter(alloc, x),
            _ => Ok(()),
        }
    }

    fn open(&mut self) -> Result<(), AllocError>
        requires { IsNested 0 self.old.starts.items (length self.old.visible) }
        ensures here { OnOk result (standing_of self.new ≡ after (standing_of self.old) Said.Opens) }
        ensures nested { OnOk result (IsNested 0 self.new.starts.items (length self.new.visible)) }
    {
        self.starts.push(self.visible.len() as usize)?;
        Ok(())
    }

    fn close(&mut self)
        requires { IsNested 0 self.old.starts.items (length self.old.visible) }
        ensures here { standing_of self.new ≡ after (standing_of self.old) Said.Closes }
        ensures nested { IsNested 0 self.new.starts.items (length self.new.visible) }
    {
        if let Some(start) = self.starts.pop() {
            self.visible.truncate(start);
        }
    }

    fn enter(&mut self, alloc: Global, name: &Name) -> Result<(), AllocError>
        requires { IsNested 0 self.old.starts.items (length self.old.visible) }
        ensures here { OnOk result (standing_of self.new ≡ after (standing_of self.old) (Said.Enters name.now)) }
        ensures nested { OnOk result (IsNested 0 self.new.starts.items (length self.new.visible)) }
    {
        self.declared.add(alloc, name)?;
        self.visible.add(alloc, name)?;
        Ok(())
    }
}
