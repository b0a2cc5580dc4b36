//! What leads to some definitions.

ghost use Rattle.std.specs.Prelude.{◌≡◌, ◌<◌, ◌⊎◌, ◌↔◌, ◌∷◌, ◌++◌, [], ℕ, All, Contains, IfOk, OnOk, length, set};
ghost use Rattle.base_use_order.specs.Uses.{IsWithin, Uses, table_of, used_by};
ghost use Rattle.base_use_order.specs.Reach.{IsLeading, IsReached};

use crate::users_reach::{reached, used_of};
use base_core::NoMemory;
use std::alloc::Global;

/// Adds a user of a definition.
fn add_user(users: &mut Vec<Vec<usize>>, definition: usize, user: usize) -> Result<(), NoMemory>
    requires { definition < length users.old.items }
    ensures { OnOk result (table_of users.new.items ≡ set (table_of users.old.items) definition (used_by (table_of users.old.items) definition ++ user ∷ [])) }
{
    users[definition].push(user)?;
    Ok(())
}

/// Adds a definition as a user of those that it uses.
fn add_uses(users: &mut Vec<Vec<usize>>, used: &[usize], user: usize) -> Result<(), NoMemory>
    requires { All (λ a. a < length users.old.items) used.now }
    ensures sizes { OnOk result (length users.new.items ≡ length users.old.items) }
    ensures exact { OnOk result ((a b : ℕ) → Uses (table_of users.new.items) a b ↔ (Uses (table_of users.old.items) a b ⊎ (Contains used.now a × (b ≡ user)))) }
{
    for definition in used {
        add_user(users, *definition, user)?;
    }
    Ok(())
}

/// No users, of so many definitions.
fn no_users(alloc: Global, count: usize) -> Result<Vec<Vec<usize>>, NoMemory>
    ensures sizes { IfOk result (λ users. length users.items ≡ count) }
    ensures none { IfOk result (λ users. (a b : ℕ) → ¬ (Uses (table_of users.items) a b)) }
{
    let mut users = Vec::new(alloc);
    while users.len() < count {
        users.push(Vec::new(alloc))?;
    }
    Ok(users)
}

/// For each definition those that use it.
fn users(alloc: Global, uses: &[Vec<usize>]) -> Result<Vec<Vec<usize>>, NoMemory>
    requires { IsWithin (table_of uses.now) }
    ensures sizes { IfOk result (λ users. length users.items ≡ length uses.now) }
    ensures exact { IfOk result (λ users. (a b : ℕ) → Uses (table_of users.items) a b ↔ Uses (table_of uses.now) b a) }
{
    let mut users = no_users(alloc, uses.len())?;
    for user in 0..uses.len() {
        add_uses(&mut users, used_of(uses, user), user)?;
    }
    Ok(users)
}

/// For each definition whether it is one of these, or uses one of them, directly or through others.
pub fn leading(alloc: Global, uses: &[Vec<usize>], to: &[usize]) -> Result<Vec<bool>, NoMemory>
    requires within { IsWithin (table_of uses.now) }
    requires to { All (λ a. a < length uses.now) to.now }
    ensures sizes { IfOk result (λ r. length r.items ≡ length uses.now) }
    ensures exact { IfOk result (λ r. (a : ℕ) → IsReached r.items a ↔ IsLeading (table_of uses.now) to.now a) }
{
    let users = users(alloc, uses)?;
    reached(alloc, &users, to)
}
