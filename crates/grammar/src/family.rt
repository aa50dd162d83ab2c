// Families of names: what stands in one under a name, and whether a name stands there.
ghost use Rattle.std.specs.Prelude.{◌≡◌, map};
ghost use Rattle.words.specs.declared.name.Ident.{Ident};
ghost use Rattle.grammar.specs.Table.{known};

use words::name::Ident;

/// What stands in a family under a name.
pub trait Named {
    ghost named: { Self → Ident };

    /// The name.
    fn ident(&self) -> Ident
        ensures { result ≡ named self.now };
}

impl Named for Ident {
    ghost named = { λ n. n };

    fn ident(&self) -> Ident {
        *self
    }
}

// Whether a name stands in a family.
pub(crate) fn has_name<T: Named>(family: &[T], ident: Ident) -> bool
    ensures { result ≡ known ident (map T.named family.now) }
{
    family.iter().any(|x| x.ident().name == ident.name)
}
