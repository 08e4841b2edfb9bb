//! Commands from a seed.

ghost use Rattle.std.specs.Prelude.{◌≡◌, IfOk};
ghost use Rattle.map_maker.specs.Words.{words_from, after_words};
ghost use Rattle.map_maker.specs.Drill.{drill_commands, commands_of, edit_of, query_of};
ghost use Rattle.map_maker.specs.Drawing.{words_needed, Draws};

use crate::NoMemory;
use rand_core::SeedableRng;
use rand_core::utils::NextWord;
use rand_pcg::Lcg64Xsh32;
use script_text::ScriptCommand;
use std::alloc::Global;

/// How many commands a drill has.
const COMMANDS: u32 = 150;

/// The commands of the drill of a seed: queries and edits in a map of 256 by 256.
pub fn drill_script(alloc: Global, seed: u64) -> Result<Vec<ScriptCommand>, NoMemory>
    ensures { IfOk result (λ commands. commands.items ≡ drill_commands seed) }
{
    let mut generator = Lcg64Xsh32::seed_from_u64(seed ^ 1);
    draw_commands(alloc, &mut generator, COMMANDS)
}

/// So many commands, numbered from 1.
fn draw_commands(
    alloc: Global,
    generator: &mut Lcg64Xsh32,
    count: u32,
) -> Result<Vec<ScriptCommand>, NoMemory>
    ensures { let words = words_from (words_needed 1 count) generator.old in
        IfOk result (λ commands. commands.items ≡ commands_of 1 count words) }
{
    let mut commands = Vec::with_capacity(alloc, count as usize)?;
    for done in 0..count {
        commands.push(draw_command(generator, done + 1))?;
    }
    Ok(commands)
}

/// The command with this number.
#[tactic(auto, unfolding(crate::specs::Words::words_from, crate::specs::Words::after_words))]
fn draw_command(generator: &mut Lcg64Xsh32, number: u32) -> ScriptCommand
    ensures { Draws number generator.old result generator.new }
{
    if number % 3 == 0 {
        draw_edit(generator)
    } else {
        draw_query(generator)
    }
}

/// An edit: its column, its row, and by the lowest bit of a third word whether it blocks or frees.
#[tactic(auto, unfolding(crate::specs::Words::words_from, crate::specs::Words::after_words))]
fn draw_edit(generator: &mut Lcg64Xsh32) -> ScriptCommand
    ensures made { result ≡ edit_of (words_from 3 generator.old) }
    ensures left { generator.new ≡ after_words 3 generator.old }
{
    let x = generator.next_word() % SIDE;
    let y = generator.next_word() % SIDE;
    if generator.next_word() % 2 == 0 {
        ScriptCommand::Block { x, y }
    } else {
        ScriptCommand::Free { x, y }
    }
}

/// A query: the column and row of its start, and those of its goal.
#[tactic(auto, unfolding(crate::specs::Words::words_from, crate::specs::Words::after_words))]
fn draw_query(generator: &mut Lcg64Xsh32) -> ScriptCommand
    ensures made { result ≡ query_of (words_from 4 generator.old) }
    ensures left { generator.new ≡ after_words 4 generator.old }
{
    let sx = generator.next_word() % SIDE;
    let sy = generator.next_word() % SIDE;
    let gx = generator.next_word() % SIDE;
    let gy = generator.next_word() % SIDE;
    ScriptCommand::Query { sx, sy, gx, gy }
}

/// The sides of a drill's map, in cells.
const SIDE: u32 = 256;
