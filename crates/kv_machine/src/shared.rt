//! What is stored at a key, shared by the keys and their history.

ghost use Rattle.std.specs.Prelude.{◌≡◌, IfOk};

use crate::key_value::Stored;
use std::alloc::{AllocError, Global};
use std::marker::Model;
use std::rc::Rc;

/// What is stored at a key. Copies share it.
#[derive(Drop)]
pub struct Shared {
    stored: Rc<Stored>,
}

impl Model for Shared {
    ghost use Rattle.kv_machine.specs.declared.key_value.Stored.{Stored};

    ghost Value = { Stored };

    ghost view = { λ a. a.stored.value };
}

impl Shared {
    /// What is to be shared.
    pub(crate) fn new(alloc: Global, stored: Stored) -> Result<Self, AllocError>
        ensures { IfOk result (λ shared. shared ≡ stored) }
    {
        Ok(Shared {
            stored: Rc::new(alloc, stored)?,
        })
    }

    /// What is shared.
    pub(crate) fn get(&self) -> &Stored
        ensures { result.now ≡ self.now }
    {
        self.stored.as_ref()
    }

    /// The same once more. Allocates nothing.
    pub(crate) fn share(&self) -> Result<Self, AllocError>
        ensures { IfOk result (λ shared. shared ≡ self.now) }
    {
        Ok(Shared {
            stored: self.stored.clone()?,
        })
    }
}
