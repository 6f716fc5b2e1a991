//! Shelves: where the parts of a journal go that are cut off it.
ghost use Rattle.std.specs.Prelude.{◌≡◌, ℕ, [], ◌∷◌, List, Option, OnOk, OnErr, IsErrOf};
ghost use Rattle.jk_io.specs.Told.{HasCause, appended};
ghost use Rattle.jk_io.specs.declared.failures.IoError.{IoError};
ghost use Rattle.lb_model.specs.declared.segment.Segment.{Segment};

use jk_io::IoError;
use lb_model::Segment;
use std::marker::Model;

/// A hold may add so many entries to a balancer. Only a shelf's `settle` spends it.
pub struct Admission {
    lb: u32,
    entries: usize,
}

impl Model for Admission {
    ghost use Rattle.lb_shared.specs.Shelves.{AdmissionNote};

    ghost Value = { AdmissionNote };

    ghost view = { λ a. record { lb = a.lb; entries = a.entries } };
}

impl Admission {
    ghost use Rattle.std.specs.Prelude.{◌≡◌, ◌≤◌, ◌-◌};

    pub fn new(lb: u32, entries: usize) -> Admission
        ensures { result ≡ record { lb = lb; entries = entries } }
    {
        Admission { lb, entries }
    }

    /// The balancer, by its place.
    pub fn lb(&self) -> u32
        ensures { result ≡ self.now.lb }
    {
        self.lb
    }

    /// How many of the entries weren't added.
    pub fn unused(self, added: usize) -> usize
        requires { added ≤ self.entries }
        ensures { result ≡ self.entries - added }
    {
        let Admission { lb: _, entries } = self;
        entries - added
    }
}

/// What keeps the segments that are cut off the journals of balancers.
pub trait Shelf {
    ghost use Rattle.std.specs.Prelude.{◌≡◌, ◌≤◌, ℕ, [], ◌∷◌, List, Option, OnOk, OnErr, IsErrOf};
    ghost use Rattle.jk_io.specs.Told.{HasCause, appended};
    ghost use Rattle.jk_io.specs.declared.failures.IoError.{IoError};
    ghost use Rattle.lb_model.specs.declared.segment.Segment.{Segment};

    // the segments that were kept, each with its balancer, in order
    ghost shelved: { Self → Option (List (ℕ × Segment)) };

    ghost faults: { Self → ℕ };

    /// Keeps a segment of balancer `lb`. After a refusal it isn't there.
    fn keep(&mut self, lb: u32, segment: Segment) -> Result<(), IoError>
        ensures kept { OnOk result (shelved self.new ≡ appended (shelved self.old) ((lb, segment) ∷ [])) }
        ensures refused { OnErr result (shelved self.new ≡ shelved self.old) }
        ensures cause { HasCause (faults self.old) (faults self.new) result }

        // The count rises in no other call.
        ensures stands { OnOk result (faults self.new ≡ faults self.old) }
        ensures wanted { IsErrOf result IoError.NoMemory → faults self.new ≡ faults self.old };

    /// Before a hold of the lock that may add so many entries to balancer `lb`, whose journal each hold cuts first where it has
    /// `cut_at`; 0 is never. A shelf may let its caller wait here until few enough entries aren't kept. It changes nothing.
    fn admit(&self, lb: u32, entries: usize, cut_at: u32) -> Admission
        ensures { result ≡ record { lb = lb; entries = entries } };

    /// That hold is over: it added so many, and the segment that it cut, if it cut one, was put away. It changes nothing.
    fn settle(&self, admission: Admission, added: usize)
        requires { added ≤ admission.entries };

    /// The count of faults.
    fn failed(&self) -> u64
        ensures { result ≡ faults self.now };
}
