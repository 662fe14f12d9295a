//! Name constraints.

ghost use Rattle.std.specs.Prelude.{◌≡◌, [], map};
ghost use Rattle.x509_general_names.specs.GeneralName.{GeneralNameValue};
ghost use Rattle.x509_general_names.specs.NameConstraints.{constraints_of, name_constraints, subtree_of};
ghost use Rattle.x509_c.specs.GeneralNames.{IsGeneralNameRow};
ghost use Rattle.x509_c.specs.NameConstraints.{IsNameConstraintsRow, ShowsNameConstraints};
ghost use Rattle.x509_c.specs.Options.{there_or};
ghost use Rattle.x509_c.specs.Tells.{Tells, Done};

use crate::general_names::GeneralNameRow;
use crate::options::is_some;
use crate::row_writer::{HasRow, put_rows};
use crate::status::{OK, refused};
use std::alloc::Global;
use x509_der::FromDer;
use x509_general_names::{GeneralSubtree, NameConstraints};

/// Which names may be certified: `rtv_name_constraints` of rushtrivet.h.
#[repr(C)]
#[derive(Clone, Copy)]
pub struct NameConstraintsRow {
    /// How many subtrees are permitted.
    pub permitted_count: usize,
    /// How many subtrees are excluded.
    pub excluded_count: usize,
    /// 1 where permitted subtrees are named, and else 0.
    pub has_permitted: u32,
    /// 1 where excluded subtrees are named, and else 0.
    pub has_excluded: u32,
}

fn permitted<'v, 'a>(constraints: &'v NameConstraints<'a>) -> &'v [GeneralSubtree<'a>]
    ensures { map subtree_of result.now ≡ there_or [] (constraints_of constraints.now).permitted }
{
    match &constraints.permitted_subtrees {
        Some(subtrees) => subtrees.as_slice(),
        None => &[],
    }
}

fn excluded<'v, 'a>(constraints: &'v NameConstraints<'a>) -> &'v [GeneralSubtree<'a>]
    ensures { map subtree_of result.now ≡ there_or [] (constraints_of constraints.now).excluded }
{
    match &constraints.excluded_subtrees {
        Some(subtrees) => subtrees.as_slice(),
        None => &[],
    }
}

fn name_constraints_row(constraints: &NameConstraints<'_>) -> NameConstraintsRow
    ensures { IsNameConstraintsRow result (constraints_of constraints.now) }
{
    NameConstraintsRow {
        permitted_count: permitted(constraints).len(),
        excluded_count: excluded(constraints).len(),
        has_permitted: is_some(&constraints.permitted_subtrees),
        has_excluded: is_some(&constraints.excluded_subtrees),
    }
}

impl<'a> HasRow for GeneralSubtree<'a> {
    type Row = GeneralNameRow<'a>;

    ghost Value = { GeneralNameValue };

    ghost view = { subtree_of };

    ghost Shows = { IsGeneralNameRow };

    fn row(&self) -> GeneralNameRow<'a> {
        self.base.row()
    }
}

/// Which names a certification authority may certify (RFC 5280, section 4.2.1.10): the names at the roots of the subtrees that are
/// permitted and of those that are excluded, in order, as many as there are rows.
#[unsafe(no_mangle)]
pub extern "C" fn rtv_read_name_constraints<'a>(
    alloc: Global,
    value: &'a [u8],
    constraints: &mut NameConstraintsRow,
    permitted_names: &mut [GeneralNameRow<'a>],
    excluded_names: &mut [GeneralNameRow<'a>],
    at: &mut usize,
) -> u32
    ensures { Tells name_constraints value.now
        (λ read _. Done (ShowsNameConstraints constraints.new permitted_names.new excluded_names.new read))
        ((constraints.new ≡ constraints.old) × (permitted_names.new ≡ permitted_names.old) × (excluded_names.new ≡ excluded_names.old))
        at.old at.new result }
{
    match NameConstraints::from_der_located(alloc, value) {
        Ok((_, read)) => {
            *constraints = name_constraints_row(&read);
            put_rows(permitted_names, permitted(&read));
            put_rows(excluded_names, excluded(&read));
            OK
        }
        Err(refusal) => refused(refusal, at),
    }
}
