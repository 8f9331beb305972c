// The rule of the table, and the names of its steps.
ghost use Rattle.std.specs.Prelude.{[], Option, None};
ghost use Rattle.blob_parts.specs.Content.{content};
ghost use Rattle.cache_door.specs.declared.hold.Hold.{Hold};
ghost use Rattle.cache_table.specs.Keys.{about_of};
ghost use Rattle.cache_table.specs.Rule.{Ruled, newcomer};
ghost use Rattle.cache_table.specs.Plays.{Takes, Gives, Looks, LooksMount, Learns, SetsLive, SetsGone, left, right};
ghost use Rattle.cache_table.specs.Plays.{both, spent};

use crate::home::Home;
use crate::key::Key;
use crate::view::View;
use atomic_table::{Join, Play, Split, TableRule};
use cache_outside::{Archive, Frame};
use std::marker::{Brand, PhantomData};

pub struct Keeper;

impl<A: Archive, F: Frame> TableRule<Home<A, F>, View, Key<F>> for Keeper {
    ghost holds = { λ key. Ruled A.tells (content A.blobs) (about_of F.view key) };

    ghost first = { λ key. newcomer (about_of F.view key) 64 [] };
}

pub struct Take;

impl<A: Archive, F: Frame> Play<Home<A, F>, View> for Take {
    ghost then = { Takes A.tells (content A.blobs) };
}

pub struct Look;

impl<A: Archive, F: Frame> Play<Home<A, F>, View> for Look {
    ghost then = { Looks };
}

pub struct LookMount;

impl<A: Archive, F: Frame> Play<Home<A, F>, View> for LookMount {
    ghost then = { LooksMount };
}

pub struct Learn;

impl<A: Archive, F: Frame> Play<Home<A, F>, View> for Learn {
    ghost then = { Learns };
}

pub struct SetLive;

impl<A: Archive, F: Frame> Play<Home<A, F>, View> for SetLive {
    ghost then = { SetsLive };
}

pub struct SetGone;

impl<A: Archive, F: Frame> Play<Home<A, F>, View> for SetGone {
    ghost then = { SetsGone };
}

/// The hold that a give leaves its pass with. It is for the proof alone.
pub trait Leaves {
    ghost hold: { Option Hold };
}

impl Leaves for Brand {
    ghost hold = { None };
}

pub struct Give<H> {
    leaves: PhantomData<H>,
}

impl<A: Archive, F: Frame, H: Leaves> Play<Home<A, F>, View> for Give<H> {
    ghost then = { Gives H.hold };
}

pub struct Cut;

impl Split<View> for Cut {
    ghost left = { left };

    ghost right = { right };
}

pub struct Merge;

impl Join<View> for Merge {
    ghost both = { both };

    ghost spent = { spent };
}
