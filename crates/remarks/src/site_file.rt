//! The files of a site.

/// A file's name, as the words of the command give it, and its text.
#[derive(Clone, Copy)]
pub(crate) struct SiteFile<'t> {
    pub(crate) name: &'t [u8],
    pub(crate) text: &'t [u8],
}

/// The names of a workers.properties and of a uriworkermap.properties; this one is empty where the command takes none.
#[derive(Clone, Copy)]
pub struct SiteNames<'n> {
    pub workers: &'n [u8],
    pub map: &'n [u8],
}
