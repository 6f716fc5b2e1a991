//! `run_jkd`: the command that was read of the words.
ghost use Rattle.std.specs.Prelude.{◌≡◌, ◌↔◌, ◌⊎◌, true, false, Err, IsOkAnd};
ghost use Rattle.jk_io.specs.Told.{Rose};
ghost use Rattle.plain_commands.specs.Endings.{number_of, plain_side, told_outside};
ghost use Rattle.plain_commands.specs.Plain.{is_plain, InputIsDue};
ghost use Rattle.jk_server.specs.Commands.{telling};
ghost use Rattle.jk_commands.specs.Commands.{DoesAsked, HandsOnOrder};
ghost use Rattle.jk_commands.specs.Ends.{status_of};
ghost use Rattle.jk_commands.specs.Orders.{IfPlain, IfServed, IsNoCommand, reads_files};
ghost use Rattle.jk_commands.specs.Plain.{EndsPlain, RunsPlain};

use crate::ends::{EndOf, JkdEnd, NO_COMMAND, NO_MEMORY};
use drill::{DrillOrder, write_drill};
use gear_parts::{ToldWorld, World};
use jk_cli::{Order, WordsError};
use jk_io::{Door, Files, Sink, Source};
use jk_server::{ContainerOrder, GearOrder, ServeRun, contain, serve};
use plain_commands::{PlainRun, run_plain};
use site_reports::SiteFound;
use std::alloc::Global;
use std::sync::Wait;
use std::thread::Threads;

/// Lets a value go. A caller's check then doesn't write out the drop of a large value.
pub fn let_go<T: Drop>(_it: T) {}

/// Does a plain command, and answers how it ended.
fn do_plain<F: Files, S: Source, O: Sink>(
    alloc: Global,
    order: &Order,
    files: &mut F,
    input: &mut S,
    out: &mut O,
) -> PlainRun
    ensures plain { let at = plain_side F.Files S.Meanings O.Meanings in
        RunsPlain order.now (at files.old input.old out.old) (at files.new input.new out.new) (number_of result.end) result.site }
    ensures files { (files.new ≡ files.old) ⊎ (reads_files order.now ≡ true) }
    ensures input { (input.new ≡ input.old) ⊎ InputIsDue (told_outside F.Files S.Meanings files.old input.old) order.now }

    // 2 comes exactly by the order, and then nothing is done.
    ensures no_command { (number_of result.end ≡ 2) ↔ (is_plain order.now ≡ false) }
    ensures nothing { number_of result.end ≡ 2 → (files.new ≡ files.old) × (input.new ≡ input.old) }
    ensures no_words { number_of result.end ≡ 2 → O.sent out.new ≡ O.sent out.old }

    // 5 comes only where the output's faults rose, and 6 only where they stand.
    ensures output_fault { number_of result.end ≡ 5 → Rose (O.faults out.old) (O.faults out.new) }
    ensures wanting { number_of result.end ≡ 6 → O.faults out.new ≡ O.faults out.old }
{
    run_plain(alloc, order, files, input, out)
}

/// Does the command that was read of the words, by `read_words`, and answers how it ended; a plain command that judged the files
/// of a site also what it found of them, and `serve` where one of them is refused.
pub fn run_jkd<F: Files, S: Source, O: Sink, W: World, R: Threads + Wait + Sync>(
    rt: &R,
    alloc: Global,
    asked: &Result<Order, WordsError>,
    files: &mut F,
    input: &mut S,
    out: &mut O,
    world: &mut W,
) -> (JkdEnd, Option<SiteFound>)
where
    <W::D as Door>::L: Send,
    // An order that asks for workers or threads: `serve`, `container` and `drill`. Its input isn't looked at.
    ensures serves { IfServed asked.now (λ o. DoesAsked (telling F.Files O.Meanings ⟦<W as ToldWorld>⟧.told)
        o (files.old, out.old, world.old) (files.new, out.new, world.new) result.0) }

    // Of files that `serve` refused what it found of them is handed on; the others have no site.
    ensures refused { IfServed asked.now (λ o. HandsOnOrder (telling F.Files O.Meanings ⟦<W as ToldWorld>⟧.told)
        o (files.old, out.old, world.old) (files.new, out.new, world.new) (status_of result.0) result.1) }

    // Any other order: a plain command, or none. The world isn't asked.
    ensures plain { IfPlain asked.now (λ o. let at = plain_side F.Files S.Meanings O.Meanings in
        EndsPlain o (at files.old input.old out.old) (at files.new input.new out.new) result.0 result.1) }
    ensures world { IfPlain asked.now (λ _. world.new ≡ world.old) }

    // Files are read where the command has some, and of the input nothing unless a plain command reads it.
    ensures files { (files.new ≡ files.old) ⊎ IsOkAnd asked.now (λ o. reads_files o ≡ true) }
    ensures input { (input.new ≡ input.old) ⊎ IsOkAnd asked.now (InputIsDue (told_outside F.Files S.Meanings files.old input.old)) }

    // No command, exactly by what was read of the words.
    ensures no_command { (result.0 ≡ EndOf.Status 2) ↔ IsNoCommand asked.now }
    ensures nothing { result.0 ≡ EndOf.Status 2 → (files.new ≡ files.old) × (input.new ≡ input.old) × (O.sent out.new ≡ O.sent out.old)
        × (world.new ≡ world.old) }

    // There was no memory for the order, and nothing is done.
    ensures no_memory { asked.now ≡ Err WordsError.NoMemory → (result.0 ≡ EndOf.Status 6) × (files.new ≡ files.old)
        × (input.new ≡ input.old) × (out.new ≡ out.old) × (world.new ≡ world.old) }

    // Only where the output's faults rose; and want of memory hides no failed write.
    ensures output_fault { result.0 ≡ EndOf.Status 5 → Rose (O.faults out.old) (O.faults out.new) }
    ensures wanting { status_of result.0 ≡ 6 → O.faults out.new ≡ O.faults out.old }
{
    match asked {
        Ok(Order::Serve(order)) => {
            let ServeRun { end, refused } = serve(rt, alloc, order, files, out, world);
            (EndOf::from(end), refused)
        }
        Ok(
            Order::Container {
                route,
                address,
                threads,
                clients,
            },
        ) => {
            let order = ContainerOrder {
                route: route.text(),
                threads: threads.get(),
                asked: GearOrder::of_container(address, *clients),
            };
            (EndOf::from(contain(rt, alloc, order, world)), None)
        }
        Ok(
            Order::Drill {
                seed,
                threads,
                requests,
                text,
                passes,
            },
        ) => {
            let order = DrillOrder::new(*seed, threads.get(), requests.get(), *text, *passes);
            (EndOf::from(write_drill(rt, alloc, order, out)), None)
        }
        Ok(order) => {
            let PlainRun { end, site } = do_plain(alloc, order, files, input, out);
            (EndOf::Status(end.status()), site)
        }
        Err(WordsError::Bad) => (EndOf::Status(NO_COMMAND), None),
        Err(WordsError::NoMemory) => (EndOf::Status(NO_MEMORY), None),
    }
}
