// Node, edge, end and group numbers are counted apart: a tuple struct each, whose field is private. A plain number becomes one of
// them, one becomes another, or a plain number, only by a function named here. Lists store plain numbers, and clauses see numbers.
#![tactic(auto)]

ghost use Rattle.std.specs.Prelude.{ℕ, ◌≡◌, ◌+◌, ◌*◌, ◌/◌, ◌<◌};
ghost use Rattle.matching.specs.Graph.{beside as beside_of, missing, is_missing};

use std::marker::Model;

pub mod faults;

// A mark and no None: it stands in the lists that are lent, and in the definition's.
pub const MISSING: u16 = 65535;

// Four types with a `number` each and no common trait: each type would still need its impl, and each user an import, for methods of one line.
#[derive(Clone, Copy, Debug, PartialEq, Eq)]
pub struct Node(u16);

impl Model for Node {
    ghost Value = { ℕ };

    ghost view = { λ a. a.0 };

    ghost inverse = { λ k. record { 0 = k } };
}

#[derive(Clone, Copy, Debug, PartialEq, Eq)]
pub struct Edge(u16);

impl Model for Edge {
    ghost Value = { ℕ };

    ghost view = { λ a. a.0 };

    ghost inverse = { λ k. record { 0 = k } };
}

#[derive(Clone, Copy, Debug, PartialEq, Eq)]
pub struct End(u16);

impl Model for End {
    ghost Value = { ℕ };

    ghost view = { λ a. a.0 };

    ghost inverse = { λ k. record { 0 = k } };
}

// An outermost number: a group, or a node that stands alone.
#[derive(Clone, Copy, Debug, PartialEq, Eq)]
pub struct Group(u16);

impl Model for Group {
    ghost Value = { ℕ };

    ghost view = { λ a. a.0 };

    ghost inverse = { λ k. record { 0 = k } };
}

impl Node {
    pub fn of(number: u16) -> Node
        ensures { result ≡ number }
    {
        Node(number)
    }

    // No node.
    pub fn missing() -> Node
        ensures { result ≡ missing }
    {
        Node(MISSING)
    }

    pub fn number(self) -> u16
        ensures { result ≡ self }
    {
        self.0
    }

    pub fn is_missing(self) -> bool
        ensures { result ≡ is_missing self }
    {
        self.0 == MISSING
    }

    // The node as the group of itself.
    pub fn alone(self) -> Group
        ensures { result ≡ self }
    {
        Group(self.0)
    }
}

impl Edge {
    pub fn of(number: u16) -> Edge
        ensures { result ≡ number }
    {
        Edge(number)
    }

    pub fn number(self) -> u16
        ensures { result ≡ self }
    {
        self.0
    }

    // The end at the edge's first node.
    pub fn first_end(self) -> End
        requires { self < 32768 }
        ensures { result ≡ 2 * self }
    {
        End(2 * self.0)
    }

    // The end at the edge's second node.
    pub fn second_end(self) -> End
        requires { self < 32768 }
        ensures { result ≡ 2 * self + 1 }
    {
        End(2 * self.0 + 1)
    }

    pub fn is_missing(self) -> bool
        ensures { result ≡ is_missing self }
    {
        self.0 == MISSING
    }
}

impl End {
    pub fn of(number: u16) -> End
        ensures { result ≡ number }
    {
        End(number)
    }

    pub fn number(self) -> u16
        ensures { result ≡ self }
    {
        self.0
    }

    // The edge that the end belongs to.
    pub fn edge(self) -> Edge
        ensures { result ≡ self / 2 }
    {
        Edge(self.0 / 2)
    }

    // The edge's other end: the last bit turned.
    pub fn beside(self) -> End
        ensures { result ≡ beside_of self }
    {
        if self.0 % 2 == 0 {
            End(self.0 + 1)
        } else {
            End(self.0 - 1)
        }
    }

    pub fn is_missing(self) -> bool
        ensures { result ≡ is_missing self }
    {
        self.0 == MISSING
    }
}

impl Group {
    pub fn of(number: u16) -> Group
        ensures { result ≡ number }
    {
        Group(number)
    }

    pub fn number(self) -> u16
        ensures { result ≡ self }
    {
        self.0
    }

    pub fn is_missing(self) -> bool
        ensures { result ≡ is_missing self }
    {
        self.0 == MISSING
    }
}
