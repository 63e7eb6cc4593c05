// The page.
ghost use Rattle.std.specs.Prelude.{◌≡◌, IfOk};
ghost use Rattle.sv_fresh.specs.Fresh as spec;

use crate::draw::draw_instance;
use crate::scene::Scene;
use crate::source::Source;
use std::alloc::Global;
use sv_base::NoMemory;
use sv_code::Program;
use sv_document::Nodes;
use sv_list::Items;
use sv_shapes::Showing;
use sv_states::DEPTH_LIMIT;
use sv_value::Inst;
use sv_world::World;

// The nodes of the page.
#[tactic(auto, unfolding(crate::specs::Fresh::page_nodes))]
fn page_nodes(
    alloc: Global,
    source: Source,
    program: &Program,
    world: &World,
    shown: &Showing,
) -> Result<Nodes, NoMemory>
    ensures { IfOk result (λ nodes. nodes ≡ spec.page_nodes source program.now world.now shown.now) }
{
    let root = Inst { key: 0, number: 1 };
    let scene = Scene {
        alloc,
        source,
        program,
        world,
        showing: shown,
        inst: root,
        room: DEPTH_LIMIT,
        tags: &[None],
    };
    let mut nodes = Items::new(alloc);
    draw_instance(&scene, root, None, &mut nodes)?;
    Ok(nodes)
}

/// The document tree of the page that the present states give, from the instance with number 1 on; `NoMemory` comes only where memory runs out.
#[tactic(auto, unfolding(crate::specs::Fresh::fresh))]
pub fn render(
    alloc: Global,
    program: &Program,
    world: &World,
    shown: &Showing,
) -> Result<Nodes, NoMemory>
    ensures { IfOk result (λ nodes. nodes ≡ spec.fresh program.now world.now shown.now) }
{
    page_nodes(alloc, Source::Evaluated, program, world, shown)
}

/// The document tree of the page that patches recorded, with nothing evaluated; `NoMemory` comes only where memory runs out.
#[tactic(auto, unfolding(crate::specs::Fresh::drawn))]
pub fn redraw(
    alloc: Global,
    program: &Program,
    world: &World,
    shown: &Showing,
) -> Result<Nodes, NoMemory>
    ensures { IfOk result (λ nodes. nodes ≡ spec.drawn program.now world.now shown.now) }
{
    page_nodes(alloc, Source::Recorded, program, world, shown)
}
