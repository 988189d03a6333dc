// Supplier set: the subsets of suppliers 0 to 15, ordered by inclusion.
ghost use Rattle.scales.specs.SupplierSets.{SetsAre, suppliers, supplier_coding};
ghost use Rattle.scales.specs.SupplierLaws.{supplier_laws, supplier_codes};

use crate::scale::{Scale, Written};

// Supplier k is a member where bit k is set.
#[derive(Clone, Copy, Debug)]
pub struct Suppliers {
    pub members: u16,
}

impl Scale for Suppliers {
    ghost meaning = { suppliers };

    ghost laws = { supplier_laws };

    fn lowest() -> Suppliers {
        Suppliers { members: 0 }
    }

    fn highest() -> Suppliers {
        Suppliers { members: u16::MAX }
    }

    fn join(self, other: Suppliers) -> Suppliers {
        Suppliers {
            members: self.members | other.members,
        }
    }

    fn meet(self, other: Suppliers) -> Suppliers {
        Suppliers {
            members: self.members & other.members,
        }
    }

    fn blend(self, other: Suppliers) -> Suppliers {
        self.meet(other)
    }

    fn at_or_below(self, other: Suppliers) -> bool {
        self.members & other.members == self.members
    }

    fn level(self) -> u16 {
        // at most 16: the cast loses nothing
        self.members.count_ones() as u16
    }

    fn height() -> u16 {
        16
    }
}

impl Written for Suppliers {
    ghost coding = { supplier_coding };

    ghost codes = { supplier_codes };

    fn code(self) -> u16 {
        self.members
    }

    // Every number is the code of a set.
    fn decode(code: u16) -> Option<Suppliers> {
        Some(Suppliers { members: code })
    }
}

// The bits are sets: join has the members of either, meet those of both, level counts them, and supplier k adds 2^k to the code.
pub fn supplier_sets_are_sets()
    ensures { SetsAre }
{}
