//! The workers of a configuration with their types.
ghost use Rattle.std.specs.Prelude.{◌≡◌, ◌∷◌, ◌++◌, [], ℕ, List, map, IfOk, OnOk};
ghost use Rattle.site_config.specs.declared.values.WorkerKind.{WorkerKind as AnyKind};
ghost use Rattle.std.specs.List.{flat_map};
ghost use Rattle.site_reports.specs.KindTables.{as_kinds, IsKindTable};
ghost use Rattle.site_reports.specs.Notes.{kinds_of, listed_kind, member_kinds, redirected_kind, redirected_kinds, redirecting};

use jk_io::NoMemory;
use lb_model::MemberConfig;
use site_config::{Config, Lb, Named, WorkerKind};
use std::alloc::Global;
use std::collections::HashMap;

/// Names of workers, each with its type.
type Kinds<'c> = Vec<(&'c [u8], WorkerKind)>;

/// The same, found by name.
pub(crate) type KindTable<'c> = HashMap<&'c [u8], WorkerKind>;

/// What a listed name is.
fn listed_kind(lbs: &[Lb], named: Named) -> WorkerKind
    ensures { result ≡ listed_kind lbs.now named }
{
    match named {
        Named::Status(_) => WorkerKind::Status,
        Named::Balancer(place) => match lbs.get(place as usize) {
            Some(lb) if lb.book.direct => WorkerKind::Ajp13,
            Some(_) => WorkerKind::Lb,
            None => WorkerKind::Lb,
        },
    }
}

fn push_listed<'c>(out: &mut Kinds<'c>, config: &'c Config) -> Result<(), NoMemory>
    ensures { OnOk result (as_kinds out.new.items
        ≡ as_kinds out.old.items ++ map (λ entry. (entry.0, listed_kind config.now.lbs entry.1)) config.now.listed) }
{
    for entry in config.listed.as_slice() {
        let kind = listed_kind(config.lbs.as_slice(), entry.1);
        out.push((entry.0.as_slice(), kind))?;
    }
    Ok(())
}

fn push_members<'c>(out: &mut Kinds<'c>, lb: &'c Lb) -> Result<(), NoMemory>
    ensures { OnOk result (as_kinds out.new.items ≡ as_kinds out.old.items ++ member_kinds lb.now) }
{
    for member in lb.book.members.as_slice() {
        out.push((member.name.as_slice(), WorkerKind::Ajp13))?;
    }
    Ok(())
}

fn push_all_members<'c>(out: &mut Kinds<'c>, lbs: &'c [Lb]) -> Result<(), NoMemory>
    ensures { OnOk result (as_kinds out.new.items ≡ as_kinds out.old.items ++ flat_map member_kinds lbs.now) }
{
    for lb in lbs {
        push_members(out, lb)?;
    }
    Ok(())
}

fn kinds_of<'c>(alloc: Global, config: &'c Config) -> Result<Kinds<'c>, NoMemory>
    ensures { IfOk result (λ kinds. as_kinds kinds.items ≡ kinds_of config.now) }
{
    let mut out = Vec::new(alloc);
    push_all_members(&mut out, config.lbs.as_slice())?;
    push_listed(&mut out, config)?;
    Ok(out)
}

/// Puts a worker into the table of those before it.
fn put_kind<'c>(table: &mut KindTable<'c>, name: &'c [u8], kind: WorkerKind) -> Result<(), NoMemory>
    ensures { (kinds : List (List ℕ × AnyKind)) → IsKindTable table.old kinds
        → OnOk result (IsKindTable table.new (kinds ++ (name.now, kind) ∷ [])) }
{
    table.insert(name, kind)?;
    Ok(())
}

/// The type of each name; of a name that stands there twice the last one counts.
fn table_of<'c>(alloc: Global, kinds: &[(&'c [u8], WorkerKind)]) -> Result<KindTable<'c>, NoMemory>
    ensures { IfOk result (λ table. IsKindTable table (as_kinds kinds.now)) }
{
    let mut table = HashMap::new(alloc);
    for entry in kinds {
        put_kind(&mut table, entry.0, entry.1)?;
    }
    Ok(table)
}

/// The types of a configuration's workers, by their names.
pub(crate) fn kind_table<'c>(alloc: Global, config: &'c Config) -> Result<KindTable<'c>, NoMemory>
    ensures { IfOk result (λ table. IsKindTable table (kinds_of config.now)) }
{
    table_of(alloc, kinds_of(alloc, config)?.as_slice())
}

fn push_redirected<'c>(out: &mut Kinds<'c>, member: &'c MemberConfig) -> Result<(), NoMemory>
    ensures { OnOk result (as_kinds out.new.items ≡ as_kinds out.old.items ++ redirected_kind member.now) }
{
    if member.redirect.is_some() {
        out.push((member.name.as_slice(), WorkerKind::Ajp13))?;
        Ok(())
    } else {
        Ok(())
    }
}

fn push_all_redirected<'c>(out: &mut Kinds<'c>, lb: &'c Lb) -> Result<(), NoMemory>
    ensures { OnOk result (as_kinds out.new.items ≡ as_kinds out.old.items ++ redirected_kinds lb.now) }
{
    for member in lb.book.members.as_slice() {
        push_redirected(out, member)?;
    }
    Ok(())
}

fn redirecting<'c>(alloc: Global, lbs: &'c [Lb]) -> Result<Kinds<'c>, NoMemory>
    ensures { IfOk result (λ kinds. as_kinds kinds.items ≡ flat_map redirected_kinds lbs.now) }
{
    let mut out = Vec::new(alloc);
    for lb in lbs {
        push_all_redirected(&mut out, lb)?;
    }
    Ok(out)
}

/// The members whose redirect names another one, by their names.
pub(crate) fn redirect_table<'c>(
    alloc: Global,
    config: &'c Config,
) -> Result<KindTable<'c>, NoMemory>
    ensures { IfOk result (λ table. IsKindTable table (redirecting config.now)) }
{
    table_of(alloc, redirecting(alloc, config.lbs.as_slice())?.as_slice())
}
