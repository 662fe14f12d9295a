//! Which names a certification authority may certify.

ghost use Rattle.std.specs.Prelude.{List, ⊤};
ghost use Rattle.x509_der.specs.Grammar.{allocates, in_sequence, in_element};
ghost use Rattle.x509_der.specs.Primitives.{is_explicit};
ghost use Rattle.x509_der.specs.Reading.{strict};
ghost use Rattle.x509_general_names.specs.GeneralName.{GeneralNameValue};
ghost use Rattle.x509_general_names.specs.NameConstraints.{subtree_of, subtrees_of, Constraints, constraints_of, general_subtree, general_subtrees};
ghost use Rattle.x509_general_names.specs.NameConstraints.{name_constraints, subtree_heads, subtrees_heads, constraints_heads, general_subtree_laws};
ghost use Rattle.x509_general_names.specs.NameConstraints.{general_subtrees_laws, name_constraints_laws};

use crate::general_name::GeneralName;
use std::alloc::Global;
use x509_der::{
    ErrorKind, Fields, FromDer, Outside, Place, Reader, Refused, Sequence, Tries, converted,
    read_run,
};
use x509_fields::{TryClone, X509Error, list_error, sequence_at};

/// The names that are permitted, and those that are excluded (RFC 5280, section 4.2.1.10).
///
/// ```text
/// NameConstraints ::= SEQUENCE {
///     permittedSubtrees  [0]  GeneralSubtrees OPTIONAL,
///     excludedSubtrees   [1]  GeneralSubtrees OPTIONAL }
/// GeneralSubtrees ::= SEQUENCE SIZE (1..MAX) OF GeneralSubtree
/// ```
///
/// Subtrees that cannot be read are absent, also those behind which bytes stand in their field.
#[derive(Debug, PartialEq, Drop)]
pub struct NameConstraints<'a> {
    /// Only names in these are permitted, at least one; all names where nothing is said.
    pub permitted_subtrees: Option<Sequence<GeneralSubtree<'a>>>,
    /// Names in these are excluded, at least one; none where nothing is said.
    pub excluded_subtrees: Option<Sequence<GeneralSubtree<'a>>>,
}

/// All names below one (RFC 5280, section 4.2.1.10).
///
/// ```text
/// GeneralSubtree ::= SEQUENCE {
///     base     GeneralName,
///     minimum  [0]  BaseDistance DEFAULT 0,
///     maximum  [1]  BaseDistance OPTIONAL }
/// ```
///
/// What stands behind the base is skipped.
#[derive(Debug, PartialEq, Drop)]
pub struct GeneralSubtree<'a> {
    /// The name at the root of the subtree.
    pub base: GeneralName<'a>,
}

/// Refused is only what is no whole SEQUENCE, and want of memory. Bytes behind the last field are skipped.
impl<'a> FromDer<'a, X509Error> for NameConstraints<'a> {
    ghost Value = { Constraints };

    ghost view = { constraints_of };

    ghost grammar = { in_sequence name_constraints name_constraints_laws constraints_heads allocates };

    #[tactic(auto, unfolding(crate::specs::NameConstraints::name_constraints), using(x509_der::proofs::Marking::marks_of_readers))]
    fn read_at<L: Outside>(
        alloc: Global,
        tries: &mut Tries,
        place: &Place<'a, L>,
    ) -> Result<(Self, bool), Refused<X509Error, L>> {
        let contents = sequence_at(place)?;
        let fields = Fields::of(tries, &contents);
        let (fields, permitted_subtrees) = fields.soft_by(&Subtrees { number: 0 }, alloc, tries)?;
        let (fields, excluded_subtrees) = fields.soft_by(&Subtrees { number: 1 }, alloc, tries)?;
        let constraints = NameConstraints {
            permitted_subtrees,
            excluded_subtrees,
        };
        Ok((constraints, fields.are_plain()))
    }

    ghost never_memory = { name_constraints_laws.laws.never_memory };
}

impl TryClone for NameConstraints<'_> {
    fn try_clone(&self) -> Result<Self, X509Error> {
        let permitted_subtrees = self.permitted_subtrees.try_clone()?;
        let excluded_subtrees = self.excluded_subtrees.try_clone()?;
        Ok(NameConstraints {
            permitted_subtrees,
            excluded_subtrees,
        })
    }
}

impl<'a> FromDer<'a, X509Error> for GeneralSubtree<'a> {
    ghost Value = { GeneralNameValue };

    ghost view = { subtree_of };

    ghost grammar = { in_sequence general_subtree general_subtree_laws subtree_heads allocates };

    #[tactic(auto, unfolding(crate::specs::NameConstraints::general_subtree), using(x509_der::proofs::Marking::marks_of_readers))]
    fn read_at<L: Outside>(
        alloc: Global,
        tries: &mut Tries,
        place: &Place<'a, L>,
    ) -> Result<(Self, bool), Refused<X509Error, L>> {
        let contents = sequence_at(place)?;
        let (base, plain) = Fields::of(tries, &contents).last(alloc, tries)?;
        Ok((GeneralSubtree { base }, plain))
    }

    ghost never_memory = { general_subtree_laws.laws.never_memory };
}

impl TryClone for GeneralSubtree<'_> {
    fn try_clone(&self) -> Result<Self, X509Error> {
        let base = self.base.try_clone()?;
        Ok(GeneralSubtree { base })
    }
}

/// Subtrees under the context tag of this number, at least one and to its end.
#[derive(Clone, Copy)]
struct Subtrees {
    number: u32,
}

impl<'a> Reader<'a, X509Error, Sequence<GeneralSubtree<'a>>> for Subtrees {
    ghost Value = { List GeneralNameValue };

    ghost view = { subtrees_of };

    ghost grammar = { λ s. in_element strict (is_explicit s.number) (general_subtrees s.number) (general_subtrees_laws s.number) subtrees_heads allocates };

    ghost unread = { λ _. 0 };

    ghost stands = { λ _ _ _ _. ⊤ };

    ghost stands_where = { λ _ _ _ _ _ _. tt };

    ghost refused_where = { λ _ _ _ _ _ _. tt };

    #[tactic(auto, unfolding(crate::specs::NameConstraints::general_subtrees, x509_der::specs::Leaves::explicit, x509_der::specs::Primitives::contents_at), using(x509_der::proofs::Marking::marks_of_readers))]
    fn read_at<L: Outside>(
        &self,
        alloc: Global,
        tries: &mut Tries,
        place: &Place<'a, L>,
    ) -> Result<(Sequence<GeneralSubtree<'a>>, bool), Refused<X509Error, L>> {
        let contents = converted!(place.explicit(self.number));
        let (rest, subtrees, plain) = place.judge(read_run(alloc, tries, contents.bytes()))?;
        if subtrees.is_empty() {
            return Err(contents.refuse_at(rest, list_error(ErrorKind::Many1)));
        }
        if !rest.is_empty() {
            return Err(contents.refuse_at(rest, list_error(ErrorKind::Eof)));
        }
        Ok((subtrees, plain))
    }

    ghost never_memory = { λ s. (general_subtrees_laws s.number).laws.never_memory };
}
