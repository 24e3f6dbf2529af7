use crate::label::Label;
use crate::object_header::ObjectHeader;
use ob_name::Name;

/// An object in its slot, to be read.
#[derive(Clone, Copy)]
pub struct Found<'a> {
    /// Its Id, what refers to it, and its body.
    pub header: &'a ObjectHeader,
    /// What it was made as, and whether it has a name.
    pub label: &'a Label,
    /// Its name, if its label says that it has one.
    pub name: &'a Option<Name>,
}
