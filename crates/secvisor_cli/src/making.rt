// The command `measure`: a policy is made.
ghost use Rattle.std.specs.Prelude.{◌≡◌, ◌<◌, ◌-◌, ◌++◌, [], ◌∷◌, IfOk, IfErr, IsTrue, OnOk, Err, true, map, string_bytes};
ghost use Rattle.std.specs.List.{list_all};
ghost use Rattle.sv_types.specs.Policies.{rules_of, rules_within};
ghost use Rattle.policy_making.specs.Making.{file_names, terms_of};
ghost use Rattle.policy_making.specs.Ranges.{terms_within};
ghost use Rattle.policy_making.specs.WordRanges.{are_module_names};
ghost use Rattle.host_io.specs.Outside.{FilesState};
ghost use Rattle.spec_processor.specs.Counters.{CanCount};
ghost use Rattle.cli_plans.specs.Plans.{Plan, Modules, digest_part, no_modules, module_part, modules_part, making_plan, measure_plan, measured_line};
ghost use Rattle.cli_plans.specs.Reading.{MayFollow};
ghost use Rattle.secvisor_cli.specs.Ready.{IsMade, Prepares, Passes, Staged, MayStage, kernel_value, modules_value};
ghost use Rattle.cli_plans.specs.Words.{policy_value, terms_value};
ghost use Rattle.sv_types.specs.Names.{name_within};

use crate::image_run::MAX_IMAGE_BYTES;
use crate::parts::read_part;
use crate::ready::{Made, Ready, Stop};
use cli_plans::{MakePolicy, Part, Terms};
use host_io::Files;
use policy_making::{
    MeasuredKernel, ObjectFile, Settings, entries_of, kernel_digest, policy_after, want_names,
};
use std::alloc::{AllocError, Global};
use std::thread::Threads;
use sv_types::{Digest, Name, Policy};
use text_numbers::digest_text;

/// The most bytes of a module's object.
pub const MAX_OBJECT_BYTES: usize = 16 << 20;

/// Modules' objects, and the names that they want of the kernel.
#[derive(Drop)]
pub struct WantingModules {
    pub names: Vec<Name>,
    pub objects: Vec<ObjectFile>,
}

/// Reads the kernel and the modules, each judged before the next, and makes their policy.
pub fn prepare_policy<'a, R: Threads + Sync, F: Files>(
    rt: &R,
    alloc: Global,
    asked: &MakePolicy<'a>,
    files: &mut F,
) -> Result<Ready<'a>, Stop>
    requires permitted { MayFollow (measure_plan (policy_value asked.now)) (F.state files.old) }
    requires reads { CanCount (F.state files.old).read_faults }
    requires terms { IsTrue (terms_within (policy_value asked.now).terms) }
    requires names { IsTrue (are_module_names (policy_value asked.now).modules) }
    ensures { Prepares (measure_plan (policy_value asked.now)) (F.state files.old) (F.state files.new) result }
{
    let kernel = measure_kernel(rt, alloc, asked.kernel, asked.terms.ram_pages, files)?;
    let modules = read_modules(alloc, &asked.modules, files)?;
    make_ready(rt, alloc, asked, &kernel, &modules)
}

// ---- the kernel

fn measure_kernel<R: Threads + Sync, F: Files>(
    rt: &R,
    alloc: Global,
    name: &str,
    ram_pages: u32,
    files: &mut F,
) -> Result<MeasuredKernel, Stop>
    requires permitted { MayStage (digest_part name.now ram_pages) (F.state files.old) }
    requires reads { CanCount (F.state files.old).read_faults }
    ensures { Staged (digest_part name.now ram_pages) kernel_value (F.state files.old) (F.state files.new) result }
{
    let file = read_part(alloc, files, Part::Image, name, MAX_IMAGE_BYTES)?;
    let digest = kernel_digest(rt, alloc, &file, ram_pages)?;
    Ok(MeasuredKernel { file, digest })
}

// ---- the modules

fn read_modules<F: Files>(
    alloc: Global,
    words: &[&str],
    files: &mut F,
) -> Result<WantingModules, Stop>
    requires permitted { MayStage (modules_part (map (λ word. word.now) words.now) no_modules) (F.state files.old) }
    requires reads { CanCount (F.state files.old).read_faults }
    requires names { IsTrue (list_all (λ word. name_within word.now) words.now) }
    ensures staged { Staged (modules_part (map (λ word. word.now) words.now) no_modules) modules_value (F.state files.old) (F.state files.new) result }
    ensures named { IfOk result (λ modules. file_names (modules_value modules).objects ≡ map (λ word. word.now) words.now) }
{
    let mut modules = WantingModules {
        names: Vec::new(alloc),
        objects: Vec::new(alloc),
    };
    'words: for word in words {
        read_module(alloc, word, &mut modules, files)?;
    }
    Ok(modules)
}

// A module's object is read, and the names that it wants stand after those before it.
fn read_module<F: Files>(
    alloc: Global,
    word: &str,
    modules: &mut WantingModules,
    files: &mut F,
) -> Result<(), Stop>
    requires permitted { MayStage (module_part word.now (modules_value modules.old)) (F.state files.old) }
    requires reads { CanCount (F.state files.old).read_faults }
    requires name { IsTrue (name_within word.now) }
    ensures passes { OnOk result (Passes (module_part word.now (modules_value modules.old)) (modules_value modules.new) (F.state files.old)
        (F.state files.new)) }
    ensures named { OnOk result (file_names (modules_value modules.new).objects ≡ file_names (modules_value modules.old).objects ++ word.now ∷ []) }
    ensures stopped { IfErr result (λ stop. (next : Modules → Plan) →
        Prepares (module_part word.now (modules_value modules.old) next) (F.state files.old) (F.state files.new) (Err stop)) }
{
    let Some(name) = Name::new(word) else {
        unreachable!();
    };
    let bytes = read_part(alloc, files, Part::Module, word, MAX_OBJECT_BYTES)?;
    want_names(alloc, &mut modules.names, &bytes)?;
    modules.objects.push(ObjectFile { name, bytes })?;
    Ok(())
}

// ---- the policy

// The policy of a kernel and of modules is made, and its text and its line with it.
fn make_ready<'a, R: Threads + Sync>(
    rt: &R,
    alloc: Global,
    asked: &MakePolicy<'a>,
    kernel: &MeasuredKernel,
    modules: &WantingModules,
) -> Result<Ready<'a>, Stop>
    requires terms { IsTrue (terms_within (policy_value asked.now).terms) }
    requires names { IsTrue (are_module_names (file_names (modules_value modules.now).objects)) }
    ensures { (files : FilesState) → Prepares (making_plan (policy_value asked.now) (kernel_value kernel.now) (modules_value modules.now)) files files result }
{
    let settings = settings(alloc, &asked.terms)?;
    let policy = policy_after(
        rt,
        alloc,
        settings,
        kernel,
        &modules.names,
        &modules.objects,
    )?;
    let made = measured_policy(alloc, asked.out, &policy)?;
    Ok(Ready::Save(made))
}

// What the words say of a policy alongside its files.
fn settings(alloc: Global, terms: &Terms<'_>) -> Result<Settings, AllocError>
    ensures { IfOk result (λ settings. terms_of settings ≡ terms_value terms.now) }
{
    let entries = entries_of(alloc, terms.entries)?;
    Ok(Settings {
        harts: terms.harts,
        ram_pages: terms.ram_pages,
        entries,
        init: terms.init,
    })
}

fn measured_policy<'a>(
    alloc: Global,
    name: &'a str,
    policy: &Policy,
) -> Result<Made<'a>, AllocError>
    requires within { rules_within (rules_of policy.now) ≡ true }
    ensures { IfOk result (IsMade name.now (rules_of policy.now) (measured_line policy.now.kernel)) }
{
    let text = policy::write(alloc, policy)?;
    let line = measured_line(alloc, &policy.kernel)?;
    Ok(Made { name, text, line })
}

fn measured_line(alloc: Global, digest: &Digest) -> Result<String, AllocError>
    ensures { IfOk result (λ line. string_bytes line ≡ measured_line digest.now) }
{
    let digest = digest_text(alloc, digest)?;
    format!(in alloc; "measured {digest}\n")
}
