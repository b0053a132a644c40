//! The items of a plan.
ghost use Rattle.std.specs.Prelude.{◌≡◌, option_map};
ghost use Rattle.core_state.specs.Reads.{item_at};

use heat_plan::{Item, Plan, ResName};

/// The item of a name; none where the plan has none.
pub fn item_of<'a>(plan: &'a Plan, name: &ResName) -> Option<&'a Item>
    ensures { option_map (λ i. i.now) result ≡ item_at plan.now.items name.now }
{
    let items = plan.items();
    match items.binary_search_by(|item| item.name.cmp(name)) {
        Ok(place) => Some(&items[place]),
        Err(_) => None,
    }
}
