// What passes count.

/// Eight counts. Each job says what they are of.
#[derive(Clone, Copy, PartialEq, Eq)]
pub(crate) struct Counts {
    pub of: [u64; 8],
}

impl Counts {
    /// Nothing was counted.
    pub(crate) fn none() -> Counts {
        Counts { of: [0; 8] }
    }

    /// One of that kind, of kinds 0 to 7.
    pub(crate) fn one(kind: u32) -> Counts {
        let mut of = [0; 8];
        of[(kind % 8) as usize] = 1;
        Counts { of }
    }

    /// One of that kind, where it is so.
    pub(crate) fn one_if(so: bool, kind: u32) -> Counts {
        if so {
            Counts::one(kind)
        } else {
            Counts::none()
        }
    }

    /// Both together.
    pub(crate) fn and(self, other: Counts) -> Counts {
        let mut of = self.of;
        for k in 0..8usize {
            of[k] = of[k].saturating_add(other.of[k]);
        }
        Counts { of }
    }
}
