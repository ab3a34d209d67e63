// Where the fields of components stand in a file.
use reader::span::Span;

// The fields of a key, as places. A struct of its own: one for keys in every form would say less of each.
#[derive(Clone, Copy, Default)]
pub struct KeyPlaces {
    pub registry: Span,
    pub class: Span,
    pub maker: Span,
    pub model: Span,
    pub serial: Span,
}

// A component, without the fields that are passed over.
#[derive(Clone, Copy, Default)]
pub struct ComponentPlaces {
    pub key: KeyPlaces,
    pub revision: Option<Span>,
    pub replaceable: Option<Span>,
    pub status: Option<Span>,
}

// A component list: where its content stands, and how many components it has.
#[derive(Clone, Copy)]
pub struct Components {
    pub list: Span,
    pub count: usize,
}
