//! Cubes, and covers of functions by them.

ghost use Rattle.std.specs.Prelude.{◌≡◌, ◌≤◌, ◌<◌, ◌^◌, ℕ, length, slice_get};
ghost use Rattle.lnet_sop.specs.Covers.{IsCube, IsCover};

use std::marker::Model;

/// A product of literals of up to 16 variables: variable `i` stands in it where bit `i` of `care` is set, plain where bit
/// `i` of `value` is set and else complemented. The bits of `value` lie within `care`.
///
/// The cube holds at a row where each of its literals does: where `row & care == value`.
#[derive(Clone, Copy, Debug, Default, PartialEq, Eq)]
pub struct Cube {
    /// The variables whose literals stand in the cube.
    pub care: u16,
    /// Those of them that are plain.
    pub value: u16,
}

/// A sum of products: a list of cubes of up to ten variables. Its function is true where some cube holds.
///
/// Contracts see the number of variables and the list of the cubes. The type keeps that each cube has literals of these
/// variables alone. A cover takes four bytes for each cube.
#[derive(Drop)]
pub struct Cover {
    pub(crate) vars: u8,
    pub(crate) cubes: Vec<Cube>,
}

impl Model for Cover {
    ghost use Rattle.lnet_sop.specs.Covers.{CoverValue, IsCover};

    ghost Value = { CoverValue };

    ghost view = { λ c. record { vars = c.vars; cubes = c.cubes.items } };

    ghost invariant = { λ c. IsCover c.vars c.cubes.items };
}

impl Cover {
    /// The number of variables, at most 10.
    pub fn vars(&self) -> u8
        ensures value { result ≡ self.now.vars }
        ensures few { result ≤ 10 }
    {
        self.vars
    }

    /// The number of cubes.
    pub fn len(&self) -> u32
        ensures { result ≡ length self.now.cubes }
    {
        self.cubes.len() as u32
    }

    /// Cube `i`, counted from 0; `i` is below `len()`. Constant time.
    pub fn cube(&self, i: u32) -> Cube
        requires { i < length self.now.cubes }
        ensures value { slice_get self.now.cubes i ≡ Some result }
        ensures within { IsCube self.now.vars result }
    {
        self.cubes[i as usize]
    }
}
