// The command `convert`: a policy's entries are bound to their places in a kernel.
ghost use Rattle.std.specs.Prelude.{◌≡◌, ◌<◌, ◌-◌, IfOk, IsTrue, length, string_bytes, true};
ghost use Rattle.sv_types.specs.Policies.{rules_of, rules_within};
ghost use Rattle.host_io.specs.Outside.{FilesState};
ghost use Rattle.spec_processor.specs.Counters.{CanCount};
ghost use Rattle.cli_plans.specs.Plans.{bound_plan, convert_plan, converted_line, kernel_part};
ghost use Rattle.cli_plans.specs.Reading.{MayFollow};
ghost use Rattle.secvisor_cli.specs.Ready.{IsMade, Prepares};
ghost use Rattle.cli_plans.specs.Values.{convert_split_of};

use crate::image_run::{MAX_IMAGE_BYTES, judge_kernel, read_policy};
use crate::parts::read_part;
use crate::ready::{Made, Ready, Stop};
use cli_plans::Part;
use cli_plans::command_words::ConvertWords;
use host_io::Files;
use policy_making::bind;
use std::alloc::{AllocError, Global};
use std::thread::Threads;
use sv_types::Policy;

/// Reads the policy and the kernel, each judged before the next, and binds the policy's entries.
pub fn prepare_converted<'a, R: Threads + Sync, F: Files>(
    rt: &R,
    alloc: Global,
    asked: &ConvertWords<'a>,
    files: &mut F,
) -> Result<Ready<'a>, Stop>
    requires permitted { MayFollow (convert_plan (convert_split_of asked.now)) (F.state files.old) }
    requires reads { CanCount (F.state files.old).read_faults }
    ensures { Prepares (convert_plan (convert_split_of asked.now)) (F.state files.old) (F.state files.new) result }
{
    let policy = read_policy(alloc, asked.given, files)?;
    let file = read_part(alloc, files, Part::Image, asked.kernel, MAX_IMAGE_BYTES)?;
    bind_file(rt, alloc, asked, policy, &file)
}

// An image's file is judged, and the entries are bound to their places in it.
fn bind_file<'a, R: Threads + Sync>(
    rt: &R,
    alloc: Global,
    asked: &ConvertWords<'a>,
    policy: Policy,
    file: &[u8],
) -> Result<Ready<'a>, Stop>
    requires within { IsTrue (rules_within (rules_of policy)) }
    ensures { (files : FilesState) →
        Prepares (kernel_part (rules_of policy) file.now (bound_plan (convert_split_of asked.now) (rules_of policy) file.now)) files files result }
{
    let image = judge_kernel(alloc, file, policy.ram_pages)?;
    let bound = bind(rt, alloc, policy, &image)?;
    let made = converted_policy(alloc, asked.out, &bound)?;
    Ok(Ready::Save(made))
}

fn converted_policy<'a>(
    alloc: Global,
    name: &'a str,
    policy: &Policy,
) -> Result<Made<'a>, AllocError>
    requires within { rules_within (rules_of policy.now) ≡ true }
    ensures { IfOk result (IsMade name.now (rules_of policy.now) (converted_line (length policy.now.entries.items))) }
{
    let text = policy::write(alloc, policy)?;
    let line = converted_line(alloc, policy.entries.len())?;
    Ok(Made { name, text, line })
}

fn converted_line(alloc: Global, entries: usize) -> Result<String, AllocError>
    ensures { IfOk result (λ line. string_bytes line ≡ converted_line entries) }
{
    format!(in alloc; "converted {entries}\n")
}
