//! What the names in a template may stand for.
ghost use Rattle.std.proofs.Props.{props};
ghost use Rattle.heat_plan.specs.Order.{Rising};
ghost use Rattle.hot_admit.specs.Resources.{resources_data, names_of};

use crate::lookup::resource_of;
use heat_value::{Props, Text};
use hot_catalog::Catalog;
use hot_tree::Res;
use type_catalog::KindDef;

/// A template's resources, in byte order of their names, the files beside it, and the kinds that stand.
#[derive(Clone, Copy)]
pub struct Basis<'a> {
    pub resources: &'a [Res],
    pub files: &'a Props,
    pub catalog: &'a Catalog,
    ghost rising: { Rising (names_of (resources_data resources.now)) } by { Prim.hlevel props },
}

impl<'a> Basis<'a> {
    ghost use Rattle.std.specs.Prelude.{◌≡◌, option_map, is_some};
    ghost use Rattle.heat_value.specs.Data.{lookup};
    ghost use Rattle.hot_admit.specs.Basis.{basis_data, kind_at as the_kind_at};
    ghost use Rattle.hot_admit.specs.Basis.{resource_named as the_resource_named};
    ghost use Rattle.hot_admit.specs.Resources.{resource_data};

    /// The resource of this name.
    pub fn resource_named(&self, name: &Text) -> Option<&'a Res>
        ensures { option_map (λ r. resource_data r.now) result
            ≡ the_resource_named (basis_data self.now).resources name.now }
    {
        resource_of(self.resources, name)
    }

    /// Whether a file has this name.
    pub fn has_file(&self, name: &Text) -> bool
        ensures { result ≡ is_some (lookup name.now (basis_data self.now).files) }
    {
        self.files.get(name).is_some()
    }

    /// The kind of a resource, where it stands.
    pub fn kind_at(&self, res: &Res) -> Option<&'a KindDef>
        ensures { option_map (λ k. k.now) result ≡ the_kind_at (basis_data self.now) (resource_data res.now) }
    {
        self.catalog.kind(&res.kind)
    }
}
