// Laws of translation under a view. A law takes no argument and does nothing; its clause is the theorem.

ghost use Rattle.std.specs.Prelude.{◌≡◌, ℕ, ◌*◌, List, length};
ghost use Rattle.spec_processor.specs.Bytes.{page_size};
ghost use Rattle.spec_processor.specs.Translation.{Settings, place};
ghost use Rattle.sv_types.specs.Views.{IsView, Sight, with_ram, under_view};
ghost use Rattle.spec_processor.specs.GStage.{WalksInside, WalksApart, two_stages};
ghost use Rattle.spec_processor.specs.declared.access.Access.{Access};
ghost use Rattle.spec_processor.specs.declared.mode.Mode.{Mode};
ghost use Rattle.sv_types.specs.declared.protection.Protection.{Protection};

/// Under a view, translation through both stages is the plain translation over RAM, followed by the view's answer,
/// for every virtual address, of 64 bits or not.
pub fn law_two_stages()
    ensures { (tables ram : List ℕ) (ram_pages hgatp : ℕ) (guards : ℕ → Protection) (sight : Sight) → IsView tables ram_pages guards sight hgatp →
        length ram ≡ page_size * ram_pages → (s : Settings) (mode : Mode) (va : ℕ) (access : Access) →
        two_stages (with_ram tables ram) hgatp s mode va access ≡ under_view (length tables) ram_pages sight guards access (place ram s mode va access) }
{}

/// Under a view, every G-stage walk leads into the region.
pub fn law_walks_inside()
    ensures { (tables ram : List ℕ) (ram_pages hgatp : ℕ) (guards : ℕ → Protection) (sight : Sight) → IsView tables ram_pages guards sight hgatp →
        length ram ≡ page_size * ram_pages → WalksInside (with_ram tables ram) hgatp }
{}

/// Under a view, every G-stage walk reads the tables alone and leads to RAM.
pub fn law_walks_apart()
    ensures { (tables ram : List ℕ) (ram_pages hgatp : ℕ) (guards : ℕ → Protection) (sight : Sight) → IsView tables ram_pages guards sight hgatp →
        length ram ≡ page_size * ram_pages → WalksApart (with_ram tables ram) hgatp }
{}
