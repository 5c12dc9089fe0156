//! What two files hold is one thing.
ghost use Rattle.std.specs.Prelude.{◌≡◌, ℕ, List};
ghost use Rattle.outside_world.specs.declared.world.FileName.{FileName};
ghost use Rattle.realm_pages.specs.Generations.{Generation};
ghost use Rattle.realm_pages.specs.Files.{Counts};
ghost use Rattle.realm_pages.specs.Damages.{HasDamagedPages};
ghost use Rattle.realm_pages.specs.Finding.{HoldsNewest};
ghost use Rattle.realm_pages.specs.declared.damage.Damage.{Damage};

/// Two files have one newest generation, or one damage, or neither counts.
pub fn one_finding()
    ensures one_generation { (files : FileName → List ℕ) (file other : FileName) (g h : Generation)
        → HoldsNewest files file g → HoldsNewest files other h → (file ≡ other) × (g ≡ h) }
    ensures none_damaged { (damage : Damage) (files : FileName → List ℕ) (file : FileName) (g : Generation)
        → HasDamagedPages damage files → HoldsNewest files file g → ⊥ }
    ensures one_damage { (damage other : Damage) (files : FileName → List ℕ)
        → HasDamagedPages damage files → HasDamagedPages other files → damage ≡ other }
    ensures some_counts { (damage : Damage) (files : FileName → List ℕ)
        → HasDamagedPages damage files → ((file : FileName) → Counts (files file) → ⊥) → ⊥ }
{}
