// The headers that runs name.
ghost use Rattle.std.specs.Prelude.{◌≡◌, ◌++◌, ◌∷◌, [], map, true, false, Some, IfOk, OnOk};
ghost use Rattle.std.specs.List.Sorted.{IsStrictlySortedBy};
ghost use Rattle.symbolic_expand.specs.parts.Search.{with_header, header_at};
ghost use Rattle.symbolic_expand.specs.Texts.{text_cmp};

use crate::texts::TextSet;
use base_types::{Bytes, List};
use directive_scan::HeaderName;
use std::alloc::{AllocError, Global};

/// The names found: those of headers with quotes, and those of headers with angles.
#[derive(Drop)]
pub(crate) struct Found {
    pub quoted: TextSet,
    pub angled: TextSet,
}

/// Adds the header that a run names.
pub(crate) fn put_header(found: &mut Found, header: Option<HeaderName>) -> Result<(), AllocError>
    ensures { OnOk result ((found.new.quoted ≡ with_header false header found.old.quoted) × (found.new.angled ≡ with_header true header found.old.angled)) }
{
    match header {
        None => Ok(()),
        Some(h) => put_name(found, h),
    }
}

fn put_name(found: &mut Found, header: HeaderName) -> Result<(), AllocError>
    ensures { OnOk result ((found.new.quoted ≡ with_header false (Some header) found.old.quoted) × (found.new.angled ≡ with_header true (Some header) found.old.angled)) }
{
    let angle = header.angle;
    let text = header.name.into_vec()?;
    if angle {
        found.angled.insert(text)
    } else {
        found.quoted.insert(text)
    }
}

/// The headers in order, those with quotes first.
pub(crate) fn headers_in_order(alloc: Global, found: Found) -> Result<List<HeaderName>, AllocError>
    ensures ok { IfOk result (λ hs. hs ≡ map (header_at false) found.quoted ++ map (header_at true) found.angled) }
    ensures quoted { IsStrictlySortedBy text_cmp found.quoted }
    ensures angled { IsStrictlySortedBy text_cmp found.angled }
{
    let _quoted = found.quoted.len();
    let _angled = found.angled.len();
    let mut out = Vec::new(alloc);
    put_all(&mut out, false, found.quoted)?;
    put_all(&mut out, true, found.angled)?;
    Ok(List::of(out))
}

fn put_all(out: &mut Vec<HeaderName>, angle: bool, mut texts: TextSet) -> Result<(), AllocError>
    ensures { OnOk result (out.new.items ≡ out.old.items ++ map (header_at angle) texts) }
{
    while let Some(text) = texts.pop() {
        out.push(HeaderName {
            angle,
            name: Bytes::of(text),
        })?;
    }
    Ok(())
}

/// The texts in order.
pub(crate) fn texts_in_order(alloc: Global, mut texts: TextSet) -> Result<List<Bytes>, AllocError>
    ensures ok { IfOk result (λ list. list ≡ texts) }
    ensures ordered { IsStrictlySortedBy text_cmp texts }
{
    let _texts = texts.len();
    let mut out = Vec::new(alloc);
    while let Some(text) = texts.pop() {
        out.push(Bytes::of(text))?;
    }
    Ok(List::of(out))
}
