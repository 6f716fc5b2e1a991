//! `Site`: the Books of all balancers with the ledger that counts their entries, and what its calls hand out.
ghost use Rattle.std.specs.Prelude.{◌≡◌};

mod calls;
mod cut;
mod opened;

pub use cut::SiteSegment;
use jk_io::ListOf;
use lb_book::{Book, Receipt};
use lb_model::{FullMark, Stray, View};
use std::marker::{Brand, Model, PhantomData};
use std::sync::ledger::{Book as Tally, Ledger};

/// The most entries that the Books of a site ever add together: 1,024 times 2^48.
pub const MOST_ENTRIES: u64 = 1 << 58;

/// The ledger of one Site, with what is fixed of the Site's Books.
pub trait SiteName: Ledger {
    ghost use Rattle.std.specs.Prelude.{List, ℕ};
    ghost use Rattle.lb_model.specs.declared.opening.Opening.{Opening};

    // the opening of each Book when the Site was opened, with its configuration
    ghost starts: { List Opening };

    // the number of members of each balancer, in order
    ghost sizes: { List ℕ };

    // the number that was to come next in each Book when the Site was opened
    ghost firsts: { List ℕ };

    // the number of kept entries from which on a shared journal is cut; 0 is never
    ghost cut_at: { ℕ };

    // the name of the ledger of its cuts
    ghost cuts_name: { ℕ };
}

impl SiteName for Brand {
    ghost use Rattle.std.specs.Prelude.{[]};

    ghost starts = { [] };

    ghost sizes = { [] };

    ghost firsts = { [] };

    ghost cut_at = { 0 };

    ghost cuts_name = { 0 };
}

/// The Books of all balancers, in order. Each has rules 2, and the ledger's total is the number of entries that they
/// ever added together. A contract sees the list of their journals.
#[derive(Drop)]
pub struct Site<L: SiteName> {
    books: Vec<Book>,
    total: Tally<L>,
}

impl<L: SiteName> Model for Site<L> {
    ghost use Rattle.std.specs.Prelude.{◌≡◌, List};
    ghost use Rattle.lb_book.specs.Journal.{Journal};
    ghost use Rattle.lb_shared.specs.Sites.{AreSited, added_in};

    ghost Value = { List Journal };

    ghost view = { λ s. s.books.items };

    ghost invariant = { λ s. (s.total.total ≡ added_in s.books.items) × AreSited L.sizes L.firsts s.books.items };
}

/// The receipt of an entry that a call of this Site added. It can't be copied.
#[derive(Drop)]
pub struct SiteReceipt<L> {
    receipt: Receipt,
    of: PhantomData<L>,
}

impl<L> Model for SiteReceipt<L> {
    ghost use Rattle.lb_book.specs.declared.receipt.Receipt.{Receipt};

    ghost Value = { Receipt };

    ghost view = { λ r. r.receipt };
}

/// Receipts of one Site, in the order of the calls.
pub type SiteReceiptList<L> = ListOf<SiteReceipt<L>>;

impl<L> SiteReceipt<L> {
    pub fn receipt(&self) -> &Receipt
        ensures { result.now ≡ self.now }
    {
        &self.receipt
    }
}

/// A ticket that a select of this Site made. Only the Site's `give_back` spends it.
pub struct SiteLease<L> {
    lb: u32,
    member: u32,
    ticket: u64,
    of: PhantomData<L>,
}

impl<L> Model for SiteLease<L> {
    ghost use Rattle.lb_book.specs.Desks.{LeaseNote};

    ghost Value = { LeaseNote };

    ghost view = { λ l. record { lb = l.lb; member = l.member; ticket = l.ticket } };
}

impl<L> SiteLease<L> {
    /// The balancer, by its place.
    pub fn lb(&self) -> u32
        ensures { result ≡ self.now.lb }
    {
        self.lb
    }

    /// The member that was chosen.
    pub fn member(&self) -> u32
        ensures { result ≡ self.now.member }
    {
        self.member
    }

    /// The ticket's number.
    pub fn ticket(&self) -> u64
        ensures { result ≡ self.now.ticket }
    {
        self.ticket
    }
}

/// Which refusal of a Book a mark tells of.
#[derive(Clone, Copy, PartialEq, Eq)]
pub enum MarkKind {
    /// No number was left.
    Full,
    /// The least common multiple of the factors would have passed its limit.
    TooWide,
}

/// What a refusal of this Site left: the balancer, the refusal and the numbers of its Book. It can't be copied.
#[derive(Drop)]
pub struct SiteMark<L> {
    lb: u32,
    refusal: MarkKind,
    numbers: FullMark,
    of: PhantomData<L>,
}

impl<L> Model for SiteMark<L> {
    ghost use Rattle.lb_shared.specs.Notes.{MarkNote};

    ghost Value = { MarkNote };

    ghost view = { λ m. record { lb = m.lb; refusal = m.refusal; numbers = m.numbers } };
}

/// A balancer of this Site as it was looked at. It can't be copied.
#[derive(Drop)]
pub struct SiteView<L> {
    lb: u32,
    view: View,
    of: PhantomData<L>,
}

impl<L> Model for SiteView<L> {
    ghost use Rattle.lb_shared.specs.Notes.{ViewNote};

    ghost Value = { ViewNote };

    ghost view = { λ v. record { lb = v.lb; view = v.view } };
}

impl<L> SiteView<L> {
    pub fn view(&self) -> &View
        ensures { result.now ≡ self.now.view }
    {
        &self.view
    }
}

/// A ticket of this Site that came back and wasn't out. Only a refused `give_back` makes one, and it can't be copied.
#[derive(Drop)]
pub struct SiteStray<L> {
    lb: u32,
    stray: Stray,
    of: PhantomData<L>,
}

impl<L> Model for SiteStray<L> {
    ghost use Rattle.lb_shared.specs.Notes.{StrayNote};

    ghost Value = { StrayNote };

    ghost view = { λ s. record { lb = s.lb; stray = s.stray } };
}

impl<L> SiteStray<L> {
    /// What the Book said of the ticket.
    pub fn stray(&self) -> Stray
        ensures { result ≡ self.now.stray }
    {
        self.stray
    }
}

/// What a select of this Site answered. The lease is there exactly where a member was chosen.
pub struct SitePicked<L> {
    pub receipt: SiteReceipt<L>,
    pub lease: Option<SiteLease<L>>,
}
