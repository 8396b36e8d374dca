//! What is known of the stacks at an instruction.

ghost use Rattle.data_instructions.specs.Shapes.{empty};
ghost use Rattle.data_instructions.specs.Joining.{Joins};
ghost use Rattle.std.specs.Prelude.{◌≡◌, [], ◌∷◌, MatchOption, OnOk, IfOk, IsTrue, ◌↔◌, length, slice_get};

use crate::index::ItemIndex;
use items::Taken;
use std::alloc::{AllocError, Global};
use std::marker::Model;

/// What is known of a place: its item, and the greatest offset that it can have in the item's area, in bytes.
#[derive(Clone, Copy, PartialEq, Eq)]
pub struct PlaceShape {
    pub item: ItemIndex,
    pub reach: usize,
}

/// What is known of each place on a stack, of the newest first.
#[derive(Drop)]
pub struct PlaceShapes {
    shapes: Vec<PlaceShape>,
}

impl Model for PlaceShapes {
    ghost use Rattle.std.specs.Prelude.{List, reverse};
    ghost use Rattle.std.specs.Coded.{coded_list};
    ghost use Rattle.data_instructions.specs.declared.shape.PlaceShape.{PlaceShape};

    ghost Value = { List PlaceShape };

    ghost view = { λ it. reverse it.shapes.items };
}

impl PlaceShapes {
    pub fn new(alloc: Global) -> PlaceShapes
        ensures { result ≡ [] }
    {
        PlaceShapes {
            shapes: Vec::new(alloc),
        }
    }

    pub fn pop(&mut self) -> Option<PlaceShape>
        ensures { MatchOption result ((self.old ≡ []) × (self.new ≡ []))
            (λ newest. self.old ≡ newest ∷ self.new) }
    {
        self.shapes.pop()
    }

    /// The newest one.
    pub fn newest(&self) -> Option<PlaceShape>
        ensures { result ≡ slice_get self.now 0 }
    {
        self.shapes.last().copied()
    }

    pub fn push(&mut self, place: PlaceShape) -> Result<(), AllocError>
        ensures { OnOk result (self.new ≡ place ∷ self.old) }
    {
        self.shapes.push(place)?;
        Ok(())
    }

    pub fn copy(&self, alloc: Global) -> Result<PlaceShapes, AllocError>
        ensures { IfOk result (λ copy. copy ≡ self.now) }
    {
        Ok(PlaceShapes {
            shapes: Vec::from_slice(alloc, self.shapes.as_slice())?,
        })
    }

    pub fn same(&self, other: &PlaceShapes) -> bool
        ensures { IsTrue result ↔ (self.now ≡ other.now) }
    {
        same_places(self.shapes.as_slice(), other.shapes.as_slice())
    }

    pub fn is_empty(&self) -> bool
        ensures { IsTrue result ↔ (self.now ≡ []) }
    {
        self.shapes.is_empty()
    }

    pub fn len(&self) -> usize
        ensures { result ≡ length self.now }
    {
        self.shapes.len()
    }
}

/// What is known of the stacks: how many numbers there are, and each place.
#[derive(Drop)]
pub struct Stacks {
    pub numbers: usize,
    pub places: PlaceShapes,
}

/// What is known at an instruction.
#[derive(Drop)]
pub struct Shape {
    pub stacks: Stacks,
    /// The bytes that the line has at the most.
    pub line: usize,
    /// What was taken since the statement began, if that is the same along all ways.
    pub sender: Option<Taken>,
}

impl Shape {
    pub fn copy(&self, alloc: Global) -> Result<Shape, AllocError>
        ensures { IfOk result (λ copy. copy ≡ self.now) }
    {
        let places = self.stacks.places.copy(alloc)?;
        Ok(Shape {
            stacks: Stacks {
                numbers: self.stacks.numbers,
                places,
            },
            line: self.line,
            sender: self.sender,
        })
    }

    /// One more way to an instruction of which something is known: known is then what holds along both. False: nothing holds
    /// along both, and nothing more is said.
    pub fn join(&mut self, after: Shape) -> bool
        ensures { Joins result self.old after self.new }
    {
        if self.stacks.numbers != after.stacks.numbers
            || self.line != after.line
            || !self.stacks.places.same(&after.stacks.places)
        {
            return false;
        }
        if self.sender != after.sender {
            self.sender = None;
        }
        true
    }

    /// Nothing on either stack, nothing in the line, and nothing taken.
    pub fn empty(alloc: Global) -> Shape
        ensures { result ≡ empty }
    {
        Shape {
            stacks: Stacks {
                numbers: 0,
                places: PlaceShapes::new(alloc),
            },
            line: 0,
            sender: None,
        }
    }
}

fn same_places(one: &[PlaceShape], other: &[PlaceShape]) -> bool
    ensures { IsTrue result ↔ (one.now ≡ other.now) }
{
    one == other
}
