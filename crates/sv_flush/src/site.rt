// Where new instances stand.
ghost use Rattle.std.specs.Prelude.{◌≡◌, option_copied};
ghost use Rattle.sv_flush.specs.Creation as spec;
ghost use Rattle.sv_flush.specs.Meets.{Meets};
ghost use Rattle.sv_flush.specs.Sites.{site_seen, made_seen};

use crate::machine::{Machine, too_deep, work};
use crate::page::Page;
use sv_base::Span;
use sv_code::{Component, Tag};
use sv_instance::Standing;
use sv_meaning::component_at;
use sv_parts::PatchError;
use sv_states::AddError;
use sv_value::Inst;
use sv_view::View;

/// Where an instance is to stand: the file of its component, its parent, its tag, and the place that is told where it would be too deep.
#[derive(Clone, Copy)]
pub struct Site {
    pub file: u32,
    pub parent: Option<Inst>,
    pub standing: Option<Standing>,
    pub span: Span,
}

/// The root, which the first file is, has no parent and no tag.
pub fn root_site() -> Site
    ensures { site_seen result ≡ spec.root_site }
{
    Site {
        file: 0,
        parent: None,
        standing: None,
        span: Span {
            file: 0,
            from: 0,
            to: 0,
        },
    }
}

impl Machine<'_> {
    /// Takes a unit of work and makes an instance, whose script hasn't run; `None` exactly where the file has no component. `TreeDepth` comes
    /// exactly where it would be too deep.
    pub fn make(&self, page: &mut Page, site: Site) -> Result<Option<Inst>, PatchError>
        ensures { Meets (made_seen result) page.new (spec.made self.now.program.now (site_seen site) page.old) }
    {
        let Some(component) = component_at(self.program, site.file) else {
            return Ok(None);
        };
        work(page)?;
        match page.world.add_instance(
            site.file,
            site.parent,
            cell_count(component),
            component.constants,
            site.standing,
        ) {
            Ok(inst) => Ok(Some(inst)),
            Err(AddError::TreeDepth) => Err(too_deep(site.span)),
            Err(AddError::NoMemory) => Err(PatchError::NoMemory),
        }
    }
}

// As many cells as there are numbers for.
fn cell_count(component: &Component) -> u8
    ensures { result ≡ spec.cell_count component.now }
{
    let count = component.cells.as_slice().len();
    if count <= u8::MAX as usize {
        count as u8
    } else {
        u8::MAX
    }
}
