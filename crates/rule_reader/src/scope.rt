use crate::names::NameTable;
use document_forms::WeightsLine;

/// What the lines above a line declare.
#[derive(Drop)]
pub struct Scope<'t> {
    pub weights: WeightsLine,
    pub controls: NameTable<'t>,
    pub symbols: NameTable<'t>,
    /// The facts or variables that weights name.
    pub items: NameTable<'t>,
}
