//! General names under a context tag.

ghost use Rattle.std.specs.Prelude.{List, ⊤};
ghost use Rattle.x509_der.specs.Grammar.{allocates, in_element};
ghost use Rattle.x509_der.specs.Primitives.{is_context, is_implicit};
ghost use Rattle.x509_der.specs.Reading.{strict};
ghost use Rattle.x509_fields.specs.Errors.{is_x509_memory};
ghost use Rattle.x509_general_names.specs.AlternativeNames.{general_names_heads};
ghost use Rattle.x509_general_names.specs.ImplicitNames.{names_of, implicit_names, some_names, implicit_some_names, implicit_names_laws};
ghost use Rattle.x509_general_names.specs.ImplicitNames.{implicit_some_names_laws};
ghost use Rattle.x509_general_names.specs.GeneralName.{GeneralNameValue, general_name_heads};
ghost use Rattle.x509_der.specs.Place.{bytes_in, outside_in};
ghost use Rattle.x509_der.specs.Promises.{ReadsList};

use crate::general_name::GeneralName;
use std::alloc::Global;
use x509_der::{
    ErrorKind, Outside, Place, Reader, Refused, Sequence, Tries, Window, converted, read_run,
};
use x509_fields::{X509Error, list_error};

/// Names under the context tag of this number, as many as stand there.
#[derive(Clone, Copy)]
pub(crate) struct ImplicitNames {
    pub(crate) number: u32,
}

impl<'a> Reader<'a, X509Error, Sequence<GeneralName<'a>>> for ImplicitNames {
    ghost Value = { List GeneralNameValue };

    ghost view = { names_of };

    ghost grammar = { λ s. in_element strict (is_implicit s.number) (implicit_names s.number) (implicit_names_laws s.number) general_names_heads allocates };

    ghost unread = { λ _. 0 };

    ghost stands = { λ _ _ _ _. ⊤ };

    ghost stands_where = { λ _ _ _ _ _ _. tt };

    ghost refused_where = { λ _ _ _ _ _ _. tt };

    #[tactic(auto, unfolding(crate::specs::ImplicitNames::implicit_names), using(x509_der::proofs::Marking::marks_of_readers))]
    fn read_at<L: Outside>(
        &self,
        alloc: Global,
        tries: &mut Tries,
        place: &Place<'a, L>,
    ) -> Result<(Sequence<GeneralName<'a>>, bool), Refused<X509Error, L>> {
        let contents = converted!(place.implicit(self.number));
        let (tail, names, plain) = place.judge(read_run(alloc, tries, contents.bytes()))?;
        Ok((names, plain & tail.is_empty()))
    }

    ghost never_memory = { λ s. (implicit_names_laws s.number).laws.never_memory };
}

/// Names under the context tag of this number, at least one.
#[derive(Clone, Copy)]
pub(crate) struct SomeNames {
    pub(crate) number: u32,
}

impl<'a> Reader<'a, X509Error, Sequence<GeneralName<'a>>> for SomeNames {
    ghost Value = { List GeneralNameValue };

    ghost view = { names_of };

    ghost grammar = { λ s. in_element strict (is_implicit s.number) (implicit_some_names s.number) (implicit_some_names_laws s.number) general_names_heads allocates };

    ghost unread = { λ _. 0 };

    ghost stands = { λ _ _ _ _. ⊤ };

    ghost stands_where = { λ _ _ _ _ _ _. tt };

    ghost refused_where = { λ _ _ _ _ _ _. tt };

    #[tactic(auto, unfolding(crate::specs::ImplicitNames::implicit_some_names), using(x509_der::proofs::Marking::marks_of_readers))]
    fn read_at<L: Outside>(
        &self,
        alloc: Global,
        tries: &mut Tries,
        place: &Place<'a, L>,
    ) -> Result<(Sequence<GeneralName<'a>>, bool), Refused<X509Error, L>> {
        let contents = converted!(place.implicit(self.number));
        let (tail, names, plain) = some_names_in(alloc, tries, &contents)?;
        Ok((names, plain & tail.is_empty()))
    }

    ghost never_memory = { λ s. (implicit_some_names_laws s.number).laws.never_memory };
}

/// The names at the front of these bytes, at least one, what stands behind them, and their mark.
#[tactic(auto, unfolding(crate::specs::ImplicitNames::some_names), using(x509_der::proofs::Marking::marks_of_readers))]
pub(crate) fn some_names_in<'a, L: Outside>(
    alloc: Global,
    tries: &mut Tries,
    contents: &Window<'a, L>,
) -> Result<(&'a [u8], Sequence<GeneralName<'a>>, bool), Refused<X509Error, L>>
    ensures { ReadsList is_x509_memory strict (λ h. is_context h.class) general_name_heads (λ x. (x.0.now, names_of x.1)) (λ x. x.2) some_names L.adds
        (bytes_in contents.now) (outside_in contents.now) tries.old tries.new result }
{
    let (rest, names, plain) = match read_run(alloc, tries, contents.bytes()) {
        Ok(read) => read,
        Err(why) => return Err(contents.refuse_at(contents.bytes(), why)),
    };
    if names.is_empty() {
        return Err(contents.refuse_at(rest, list_error(ErrorKind::Many1)));
    }
    Ok((rest, names, plain))
}
