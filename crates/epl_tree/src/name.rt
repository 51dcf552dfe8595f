use epl_values::Text;
use span_text::Spot;

/// A name that is declared, with its place.
#[derive(Drop)]
pub struct Name {
    pub spot: Spot,
    pub text: Text,
}
