use jready::Ready;
use jruntime::jstate::Shapes;
use jserving::jfits::Ancestors;

/// What lasts as long as a program runs, as rows with references look at it.
#[derive(Clone, Copy)]
pub struct Lasting<'f, 'p> {
    /// The program by number.
    pub ready: &'f Ready<'p>,
    /// What stands in the heap's cells.
    pub shapes: &'f Shapes,
    /// What stands above the program's classes.
    pub ancestors: &'f Ancestors<'p>,
}
