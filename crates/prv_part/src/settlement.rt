//! The settlement of an entry: what its region is found to be, with the parts that take the entry's place.
//!
//! The type keeps that it is true, so whoever holds a settlement needs no proof of it: a board that applies
//! one stays legal. There is a constructor for each shape, which asks for the truth as its condition.
ghost use Rattle.std.specs.Prelude.{◌≡◌, Ok, Some, None};
ghost use Rattle.std.specs.Arc.{arc_value};
ghost use Rattle.std.specs.Option.{option_copied};
ghost use Rattle.prv_part.specs.Settlements.{Finding, finding, IsSettlement};

use crate::part::Part;
use crate::shape::Shape;
use prv_model::{Input, Pair};
use prv_region::Region;
use sqlite_items::Items;
use std::alloc::AllocError;
use std::marker::Model;
use std::sync::Arc;

/// What the region of an entry is found to be. Whatever a settlement is, it is true: its parts are those of
/// its shape, each input of the region lies in exactly one of them, and what each claims holds of every
/// input in it.
#[derive(Drop)]
pub struct Settlement {
    /// The pair that it is about.
    pair: Arc<Pair>,
    /// The number of the entry that it settles.
    entry: u32,
    /// The entry's region.
    region: Region,
    /// The input that both versions were run on, if they were run.
    member: Option<Input>,
    /// What the region is found to be.
    shape: Shape,
    /// The parts that the region is cut into, in the order of the numbers that they get on a board.
    parts: Items<Part>,
    /// The size that a board counts for it: the numbers of its log and the nodes of its pool.
    numbers: u64,
}

impl Model for Settlement {
    ghost use Rattle.prv_part.specs.Settlements.{Finding, IsSettlement};
    ghost use Rattle.prv_part.specs.Codes.{finding_code};
    ghost use Rattle.prv_part.specs.Kept.{found};

    ghost Value = { Finding };

    ghost coded = { finding_code };

    ghost view = { found };

    ghost invariant = { λ s. IsSettlement (found s) };
}

impl Settlement {
    /// The settlement of an empty region, which has no member. It takes no memory, as all five.
    pub fn empty(
        pair: Arc<Pair>,
        entry: u32,
        region: Region,
        parts: Vec<Part>,
        numbers: u64,
    ) -> Result<Settlement, AllocError>
        requires { IsSettlement (finding (arc_value pair) entry region None Shape.Empty parts.items numbers) }
        ensures { result ≡ Ok (finding (arc_value pair) entry region None Shape.Empty parts.items numbers) }
    {
        Ok(Settlement {
            pair,
            entry,
            region,
            member: None,
            shape: Shape::Empty,
            parts: Items::from_vec(parts),
            numbers,
        })
    }

    /// The settlement of a region of which nothing was decided. It has a member where one was run.
    pub fn stuck(
        pair: Arc<Pair>,
        entry: u32,
        region: Region,
        member: Option<Input>,
        parts: Vec<Part>,
        numbers: u64,
    ) -> Result<Settlement, AllocError>
        requires { IsSettlement (finding (arc_value pair) entry region member Shape.Stuck parts.items numbers) }
        ensures { result ≡ Ok (finding (arc_value pair) entry region member Shape.Stuck parts.items numbers) }
    {
        Ok(Settlement {
            pair,
            entry,
            region,
            member,
            shape: Shape::Stuck,
            parts: Items::from_vec(parts),
            numbers,
        })
    }

    /// The settlement of a region in which the inputs like the member have one claim.
    pub fn whole(
        pair: Arc<Pair>,
        entry: u32,
        region: Region,
        member: Input,
        parts: Vec<Part>,
        numbers: u64,
    ) -> Result<Settlement, AllocError>
        requires { IsSettlement (finding (arc_value pair) entry region (Some member) Shape.Whole parts.items numbers) }
        ensures { result ≡ Ok (finding (arc_value pair) entry region (Some member) Shape.Whole parts.items numbers) }
    {
        Ok(Settlement::run(pair, entry, region, member, Shape::Whole, parts, numbers))
    }

    /// The settlement of a region in which the inputs like the member are cut in two.
    pub fn split(
        pair: Arc<Pair>,
        entry: u32,
        region: Region,
        member: Input,
        parts: Vec<Part>,
        numbers: u64,
    ) -> Result<Settlement, AllocError>
        requires { IsSettlement (finding (arc_value pair) entry region (Some member) Shape.Split parts.items numbers) }
        ensures { result ≡ Ok (finding (arc_value pair) entry region (Some member) Shape.Split parts.items numbers) }
    {
        Ok(Settlement::run(pair, entry, region, member, Shape::Split, parts, numbers))
    }

    /// The settlement of a region in which the runs of the inputs like the member pass the bound on turns.
    pub fn beyond(
        pair: Arc<Pair>,
        entry: u32,
        region: Region,
        member: Input,
        parts: Vec<Part>,
        numbers: u64,
    ) -> Result<Settlement, AllocError>
        requires { IsSettlement (finding (arc_value pair) entry region (Some member) Shape.Beyond parts.items numbers) }
        ensures { result ≡ Ok (finding (arc_value pair) entry region (Some member) Shape.Beyond parts.items numbers) }
    {
        Ok(Settlement::run(pair, entry, region, member, Shape::Beyond, parts, numbers))
    }

    /// A settlement whose member was run.
    fn run(
        pair: Arc<Pair>,
        entry: u32,
        region: Region,
        member: Input,
        shape: Shape,
        parts: Vec<Part>,
        numbers: u64,
    ) -> Settlement
        requires { IsSettlement (finding (arc_value pair) entry region (Some member) shape parts.items numbers) }
        ensures { result ≡ finding (arc_value pair) entry region (Some member) shape parts.items numbers }
    {
        Settlement {
            pair,
            entry,
            region,
            member: Some(member),
            shape,
            parts: Items::from_vec(parts),
            numbers,
        }
    }

    /// The pair that it is about.
    pub fn pair(&self) -> &Arc<Pair>
        ensures { arc_value result.now ≡ self.now.pair }
    {
        &self.pair
    }

    /// The number of the entry that it settles.
    pub fn entry(&self) -> u32
        ensures { result ≡ self.now.entry }
    {
        self.entry
    }

    /// The entry's region.
    pub fn region(&self) -> &Region
        ensures { result.now ≡ self.now.region }
    {
        &self.region
    }

    /// The input that both versions were run on, if they were run.
    pub fn member(&self) -> Option<&Input>
        ensures { option_copied result ≡ self.now.member }
    {
        self.member.as_ref()
    }

    /// What the region is found to be.
    pub fn shape(&self) -> Shape
        ensures { result ≡ self.now.shape }
    {
        self.shape
    }

    /// The parts that the region is cut into. The fact that every settlement keeps is handed out here.
    pub fn parts(&self) -> &[Part]
        ensures value { result.now ≡ self.now.parts }
        ensures kept { IsSettlement self.now }
    {
        self.parts.as_slice()
    }

    /// The size that a board counts for it.
    pub fn numbers(&self) -> u64
        ensures { result ≡ self.now.numbers }
    {
        self.numbers
    }
}
