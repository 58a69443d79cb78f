use jready::{Ready, Tables};
use jruntime::jstate::Shapes;
use jserving::jcells::NumberArrays;
use jserving::jfits::Ancestors;

/// What stands as long as a program runs.
#[derive(Drop)]
pub struct RunTables<'f, 'p, M> {
    /// The program by number.
    pub ready: &'f Ready<'p>,
    /// What its instructions name by number.
    pub tables: &'f Tables,
    /// What stands in the heap's cells.
    pub shapes: &'f Shapes,
    pub numbers: NumberArrays,
    /// What stands above its classes.
    pub ancestors: &'f Ancestors<'p>,
    /// What frames carry of the methods of each class, where nothing else marks them.
    pub marks: &'f [M],
    /// How many frames a thread may have.
    pub depth: u32,
}
