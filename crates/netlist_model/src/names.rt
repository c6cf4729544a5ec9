// Names of nets or constants, with their places.
ghost use Rattle.std.specs.Prelude.{◌≡◌, ◌++◌, ◌∷◌, [], ◌<◌, IfOk, None, length, remove, slice_get, Some, OnOk, OnErr, IfSome};
ghost use Rattle.std.specs.List.{IsDistinct};
ghost use Rattle.std.specs.Str.{bytes_eq};
ghost use Rattle.netlist_model.specs.Circuit.{place_of};

use crate::keys::Keys;
use std::alloc::{AllocError, Global};
use std::marker::Model;

/// Names in order, with their places: at most 16,384.
#[derive(Drop)]
pub(crate) struct Names {
    keys: Keys,
}

impl Model for Names {
    ghost use Rattle.std.specs.Prelude.{List, ℕ, length, ◌≤◌};

    ghost Value = { List (List ℕ) };

    ghost view = { λ n. n.keys };

    ghost invariant = { λ n. length n.keys ≤ 16384 };
}

impl Names {
    pub(crate) fn empty(alloc: Global) -> Names
        ensures { result ≡ [] }
    {
        Names {
            keys: Keys::empty(alloc),
        }
    }

    pub(crate) fn count(&self) -> usize
        ensures { result ≡ length self.now }
    {
        self.keys.count()
    }

    pub(crate) fn find(&self, name: &[u8]) -> Option<u32>
        ensures place { result ≡ place_of name.now self.now }
        ensures within { IfSome result (λ at. at < length self.now) }
        ensures small { IfSome result (λ at. at < 16384) }
    {
        match self.keys.find(name) {
            Some(at) => Some(at as u32),
            None => None,
        }
    }

    pub(crate) fn name(&self, at: usize) -> &[u8]
        requires { at < length self.now }
        ensures { slice_get self.now at ≡ Some result.now }
    {
        self.keys.name(at)
    }

    pub(crate) fn push(&mut self, name: &[u8]) -> Result<(), AllocError>
        requires few { length self.old < 16384 }
        requires fresh { place_of name.now self.old ≡ None }
        ensures ok { OnOk result (self.new ≡ self.old ++ name.now ∷ []) }
        ensures err { OnErr result (self.new ≡ self.old) }
    {
        self.keys.push(name)
    }

    /// Takes the name at a place away. The others keep their order.
    pub(crate) fn remove(&mut self, at: usize)
        requires within { at < length self.old }
        requires differ { IsDistinct bytes_eq self.old }
        ensures { self.new ≡ remove self.old at }
    {
        self.keys.remove(at);
    }

    /// The same names in the same order.
    pub(crate) fn copy(&self) -> Result<Names, AllocError>
        requires { IsDistinct bytes_eq self.now }
        ensures { IfOk result (λ n. n ≡ self.now) }
    {
        Ok(Names {
            keys: self.keys.copy()?,
        })
    }
}
