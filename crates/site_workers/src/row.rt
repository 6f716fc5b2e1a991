//! The row of a worker: the directives that the lines give it.
ghost use Rattle.std.specs.Prelude.{◌≡◌, length, None};
ghost use Rattle.std.specs.Option.{option_map};
ghost use Rattle.site_config.specs.Entries.{as_property, as_properties};
ghost use Rattle.site_workers.specs.Ways.{is_whole, passed_row};
ghost use Rattle.site_workers.specs.Rows.{place_at, picked, property_at, row_with};
ghost use Rattle.site_config.specs.declared.directive.TheConstants.{DIRECTIVE_COUNT};

use site_config::{Directive, PropertyLine};

/// How far a row has come.
#[derive(Clone, Copy, PartialEq, Eq)]
pub(crate) enum Progress {
    /// It has the worker's own lines.
    Own,
    /// It has the worker's own lines, and a walk along references has passed the worker.
    Passed,
    /// It has the lines that are in force.
    Whole,
}

/// For each directive of a worker the place of the line that gives it.
#[derive(Clone, Copy)]
pub(crate) struct Row {
    pub(crate) places: [Option<u32>; 36],
    pub(crate) progress: Progress,
}

impl Row {
    /// No line.
    pub(crate) fn new() -> Row
        ensures progress { result.progress ≡ Progress.Own }
        ensures wide { length result.places ≡ DIRECTIVE_COUNT }
        ensures places { (d : Directive) → place_at result d ≡ None }
    {
        Row {
            places: [None; 36],
            progress: Progress::Own,
        }
    }

    /// The row with a line in the place of the one that gave the directive.
    pub(crate) fn with_place(self, directive: Directive, place: u32) -> Row
        ensures { result ≡ row_with directive place self }
    {
        let mut places = self.places;
        places[directive.slot()] = Some(place);
        Row {
            places,
            progress: self.progress,
        }
    }

    /// The row, passed by a walk.
    pub(crate) fn passed(self) -> Row
        ensures { result ≡ passed_row self }
    {
        let places = self.places;
        Row {
            places,
            progress: Progress::Passed,
        }
    }

    pub(crate) fn is_whole(&self) -> bool
        ensures { result ≡ is_whole self.now }
    {
        match self.progress {
            Progress::Own => false,
            Progress::Passed => false,
            Progress::Whole => true,
        }
    }

    /// The place of the line that gives the directive.
    pub(crate) fn place(&self, directive: Directive) -> Option<u32>
        ensures { result ≡ place_at self.now directive }
    {
        self.places[directive.slot()]
    }
}

/// The line that gives the directive.
pub(crate) fn picked<'t>(
    entries: &[PropertyLine<'t>],
    row: &Row,
    directive: Directive,
) -> Option<PropertyLine<'t>>
    ensures { option_map as_property result ≡ property_at (as_properties entries.now) row.now directive }
{
    match row.place(directive) {
        Some(place) => entries.get(place as usize).copied(),
        None => None,
    }
}
