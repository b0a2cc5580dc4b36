//! What a walk finds: mostly none or one of the places, for which no list is made.

ghost use Rattle.std.specs.Prelude.{◌≡◌, ◌++◌, ◌∷◌, [], IfOk, IsTrue, if◌then◌else◌};
ghost use Rattle.steps_walk.specs.Walking.{listed};

use crate::lists::append;
use states_core::Partial;
use std::alloc::{AllocError, Global};
use steps_filling::one_place;

/// Places that a walk found, in their order.
#[derive(Drop)]
pub enum Found {
    One(Partial),
    Many(Vec<Partial>),
}

impl Found {
    /// No places.
    pub fn none(alloc: Global) -> Found
        ensures { listed result ≡ [] }
    {
        Found::Many(Vec::new(alloc))
    }

    /// Whether there are no places.
    pub fn is_none(&self) -> bool
        ensures { IsTrue result → listed self.now ≡ [] }
    {
        match self {
            Found::One(_) => false,
            Found::Many(list) => list.is_empty(),
        }
    }

    /// The places as a list.
    pub fn into_list(self, alloc: Global) -> Result<Vec<Partial>, AllocError>
        ensures { IfOk result (λ list. list.items ≡ listed self) }
    {
        match self {
            Found::One(places) => one_place(alloc, places),
            Found::Many(list) => Ok(list),
        }
    }
}

/// The places, where it holds.
pub fn found_if(alloc: Global, holds: bool, places: Partial) -> Found
    ensures { listed result ≡ (if holds then places ∷ [] else []) }
{
    if holds {
        return Found::One(places);
    }
    Found::none(alloc)
}

/// The places that were found first, and then more.
pub fn joined(alloc: Global, first: Found, more: Found) -> Result<Found, AllocError>
    ensures { IfOk result (λ all. listed all ≡ listed first ++ listed more) }
{
    match first {
        Found::One(places) => behind_one(alloc, places, more),
        Found::Many(list) => behind_many(list, more),
    }
}

fn behind_one(alloc: Global, places: Partial, more: Found) -> Result<Found, AllocError>
    ensures { IfOk result (λ all. listed all ≡ places ∷ listed more) }
{
    match more {
        Found::One(other) => {
            let mut list = Vec::with_capacity(alloc, 2)?;
            list.push(places)?;
            list.push(other)?;
            Ok(Found::Many(list))
        }
        Found::Many(others) => {
            if others.is_empty() {
                return Ok(Found::One(places));
            }
            let mut list = one_place(alloc, places)?;
            append(&mut list, others)?;
            Ok(Found::Many(list))
        }
    }
}

fn behind_many(list: Vec<Partial>, more: Found) -> Result<Found, AllocError>
    ensures { IfOk result (λ all. listed all ≡ list.items ++ listed more) }
{
    let mut list = list;
    match more {
        Found::One(places) => {
            if list.is_empty() {
                return Ok(Found::One(places));
            }
            list.push(places)?;
            Ok(Found::Many(list))
        }
        Found::Many(others) => {
            if others.is_empty() {
                return Ok(Found::Many(list));
            }
            append(&mut list, others)?;
            Ok(Found::Many(list))
        }
    }
}
