// What has a value.
use cnf::types::Lit;

/// Values of literals, such as the trail of a search.
pub trait Values {
    /// Whether the literal is true; none where it is open.
    fn value(&self, lit: Lit) -> Option<bool>;
}

/// By variable, that of variable 1 first; those behind the end are open.
impl Values for Vec<Option<bool>> {
    fn value(&self, lit: Lit) -> Option<bool> {
        match self.get(lit.variable() as usize - 1) {
            Some(Some(value)) => Some(*value != lit.is_negated()),
            _ => None,
        }
    }
}
