//! What comes before the work: the words, the inputs, and the schema.
ghost use Rattle.std.specs.Prelude.{◌≡◌, ◌<◌, IfSome, IsUtf8, Some, length, option_map};
ghost use Rattle.ild_compile.specs.Compile.{table, Compiles};
ghost use Rattle.ild_schema.specs.Names.{number_named};
ghost use Rattle.ild_data_root.specs.Root.{root_of_text};
ghost use Rattle.ild_run.specs.Words.{job_of, name_of, heads_job, pair_job, typed_job, root_job, run_job, prove_job, verify_job, compares, creates, keeps, migrates, proves, runs, shows, verifies};
ghost use Rattle.ild_run.specs.Opening.{job_seen, AsksFor, AsksPath, AsksRoot, AsksStart, CompileAnswer, TakesInput, TakesInputs, OpensBehind, OpensFrom, TypesAnswer};

use crate::fault::{Fault, Role, Trouble};
use ild_compile::{CompileErr, compile};
use ild_data::{BlockId, Octets, Path, Txt};
use ild_data_root::root_of_text;
use ild_edges::{EdgeErr, Inputs, Taken};
use ild_run_open::Start;
use ild_schema::{Accepted, TypeNo};
use ild_script_path::path_of_text;
use std::alloc::Global;

/// What the words ask for, with the names of its inputs: the schema's; for a run its type, where it starts and its script; for a new
/// value its type and its input, and to show one its type and its root. To compare types: the two schemas', and the name of the type. For what
/// a proof says: the type, the root, the path, and the input of the proof; to make one, the type, the root and the path. Over named heads: the
/// type of their values, and the script.
#[derive(Drop)]
pub enum Job<'w> {
    Check(&'w str),
    Compat(&'w str, &'w str, &'w str),
    Run(&'w str, &'w str, Start, &'w str),
    New(&'w str, &'w str, &'w str),
    Show(&'w str, &'w str, BlockId),
    Verify(&'w str, &'w str, BlockId, Path, &'w str),
    Heads(&'w str, &'w str, &'w str),
    Prove(&'w str, &'w str, BlockId, Path),
    Migrate(&'w str, &'w str, BlockId),
}

impl Job<'_> {
    /// The name of the schema's input.
    fn schema(&self) -> &str
        ensures { name_of Role.Schema (job_seen self.now) ≡ Some result.now }
    {
        match self {
            Job::Check(schema) => schema,
            Job::Compat(schema, _, _) => schema,
            Job::Run(schema, _, _, _) => schema,
            Job::New(schema, _, _) => schema,
            Job::Verify(schema, _, _, _, _) => schema,
            Job::Heads(schema, _, _) => schema,
            Job::Prove(schema, _, _, _) => schema,
            Job::Migrate(schema, _, _) => schema,
            Job::Show(schema, _, _) => schema,
        }
    }
}

/// The id of the block whose CID has a text, if the text is that of one.
pub(crate) fn asked_root(alloc: Global, text: &str) -> Result<Option<BlockId>, Fault>
    ensures { AsksRoot (root_of_text text.now) result }
{
    match root_of_text(alloc, text) {
        Ok(found) => Ok(found),
        Err(_) => Err(Fault::Memory),
    }
}

/// The path that a text writes, if it writes one.
fn asked_path(alloc: Global, text: &str) -> Result<Option<Path>, Fault>
    ensures { AsksPath text.now result }
{
    match path_of_text(alloc, text) {
        Ok(found) => Ok(found),
        Err(_) => Err(Fault::Memory),
    }
}

/// Where a script starts by a word: from the empty value by `-`, or from the block whose CID has this text.
fn start_of_text(alloc: Global, text: &str) -> Result<Option<Start>, Fault>
    ensures { AsksStart text.now result }
{
    if text == "-" {
        return Ok(Some(Start::Empty));
    }
    match asked_root(alloc, text) {
        Ok(Some(root)) => Ok(Some(Start::Root(root))),
        Ok(None) => Ok(None),
        Err(fault) => Err(fault),
    }
}

/// What five words ask for: that what stands at a path is proved.
fn prove_job<'w>(
    alloc: Global,
    verb: &str,
    schema: &'w str,
    ty: &'w str,
    root: &str,
    path: &str,
) -> Result<Option<Job<'w>>, Fault>
    ensures { AsksFor (prove_job verb.now schema.now ty.now root.now path.now) result }
{
    if verb != "prove" {
        return Ok(None);
    }
    let id = match asked_root(alloc, root) {
        Ok(Some(id)) => id,
        Ok(None) => return Ok(None),
        Err(fault) => return Err(fault),
    };
    match asked_path(alloc, path) {
        Ok(Some(path)) => Ok(Some(Job::Prove(schema, ty, id, path))),
        Ok(None) => Ok(None),
        Err(fault) => Err(fault),
    }
}

/// What five words ask for: that a script is run, or this.
fn run_job<'w>(
    alloc: Global,
    verb: &str,
    schema: &'w str,
    ty: &'w str,
    start: &str,
    last: &'w str,
) -> Result<Option<Job<'w>>, Fault>
    ensures { AsksFor (run_job verb.now schema.now ty.now start.now last.now) result }
{
    if verb != "run" {
        return prove_job(alloc, verb, schema, ty, start, last);
    }
    match start_of_text(alloc, start) {
        Ok(Some(start)) => Ok(Some(Job::Run(schema, ty, start, last))),
        Ok(None) => Ok(None),
        Err(fault) => Err(fault),
    }
}

/// What four words ask for: a value that is shown.
fn show_job<'w>(
    alloc: Global,
    schema: &'w str,
    ty: &'w str,
    root: &str,
) -> Result<Option<Job<'w>>, Fault>
    ensures { AsksFor (option_map (shows schema.now ty.now) (root_of_text root.now)) result }
{
    match asked_root(alloc, root) {
        Ok(Some(root)) => Ok(Some(Job::Show(schema, ty, root))),
        Ok(None) => Ok(None),
        Err(fault) => Err(fault),
    }
}

/// What four words ask for: a value that is given a root that names its schema.
fn migrate_job<'w>(
    alloc: Global,
    schema: &'w str,
    ty: &'w str,
    root: &str,
) -> Result<Option<Job<'w>>, Fault>
    ensures { AsksFor (option_map (migrates schema.now ty.now) (root_of_text root.now)) result }
{
    match asked_root(alloc, root) {
        Ok(Some(root)) => Ok(Some(Job::Migrate(schema, ty, root))),
        Ok(None) => Ok(None),
        Err(fault) => Err(fault),
    }
}

/// What four words ask for: a value that is shown, or one that is given a root that names its schema.
fn root_job<'w>(
    alloc: Global,
    verb: &str,
    schema: &'w str,
    ty: &'w str,
    root: &str,
) -> Result<Option<Job<'w>>, Fault>
    ensures { AsksFor (root_job verb.now schema.now ty.now root.now) result }
{
    if verb == "show" {
        return show_job(alloc, schema, ty, root);
    }
    if verb != "migrate" {
        return Ok(None);
    }
    migrate_job(alloc, schema, ty, root)
}

/// What four words ask for: a new value, or one of these.
fn typed_job<'w>(
    alloc: Global,
    verb: &str,
    schema: &'w str,
    ty: &'w str,
    last: &'w str,
) -> Result<Option<Job<'w>>, Fault>
    ensures { AsksFor (typed_job verb.now schema.now ty.now last.now) result }
{
    if verb == "new" {
        return Ok(Some(Job::New(schema, ty, last)));
    }
    root_job(alloc, verb, schema, ty, last)
}

/// What four words ask for: that types of two schemas are compared, or what a new value or one that is shown does.
fn pair_job<'w>(
    alloc: Global,
    verb: &str,
    first: &'w str,
    second: &'w str,
    last: &'w str,
) -> Result<Option<Job<'w>>, Fault>
    ensures { AsksFor (pair_job verb.now first.now second.now last.now) result }
{
    if verb == "compat" {
        return Ok(Some(Job::Compat(first, second, last)));
    }
    typed_job(alloc, verb, first, second, last)
}

/// What four words ask for: a script over named heads, or one of these.
fn heads_job<'w>(
    alloc: Global,
    verb: &str,
    first: &'w str,
    second: &'w str,
    last: &'w str,
) -> Result<Option<Job<'w>>, Fault>
    ensures { AsksFor (heads_job verb.now first.now second.now last.now) result }
{
    if verb == "heads" {
        return Ok(Some(Job::Heads(first, second, last)));
    }
    pair_job(alloc, verb, first, second, last)
}

/// What six words ask for: that it is told what a proof says.
fn verify_job<'w>(
    alloc: Global,
    verb: &str,
    schema: &'w str,
    ty: &'w str,
    root: &str,
    path: &str,
    proof: &'w str,
) -> Result<Option<Job<'w>>, Fault>
    ensures { AsksFor (verify_job verb.now schema.now ty.now root.now path.now proof.now) result }
{
    if verb != "verify" {
        return Ok(None);
    }
    let id = match asked_root(alloc, root) {
        Ok(Some(id)) => id,
        Ok(None) => return Ok(None),
        Err(fault) => return Err(fault),
    };
    match asked_path(alloc, path) {
        Ok(Some(path)) => Ok(Some(Job::Verify(schema, ty, id, path, proof))),
        Ok(None) => Ok(None),
        Err(fault) => Err(fault),
    }
}

/// What the words ask for, or `None` where they have no form.
pub fn job_of(alloc: Global, words: &[String]) -> Result<Option<Job<'_>>, Fault>
    ensures { AsksFor (job_of words.now) result }
{
    match words {
        [verb, schema] if verb.as_str() == "check" => Ok(Some(Job::Check(schema.as_str()))),
        [verb, first, second, last] => {
            heads_job(
                alloc,
                verb.as_str(),
                first.as_str(),
                second.as_str(),
                last.as_str(),
            )
        }
        [verb, schema, ty, start, last] => {
            run_job(
                alloc,
                verb.as_str(),
                schema.as_str(),
                ty.as_str(),
                start.as_str(),
                last.as_str(),
            )
        }
        [verb, schema, ty, root, path, proof] => {
            verify_job(
                alloc,
                verb.as_str(),
                schema.as_str(),
                ty.as_str(),
                root.as_str(),
                path.as_str(),
                proof.as_str(),
            )
        }
        _ => Ok(None),
    }
}

/// Takes the input of a role.
pub(crate) fn take_input<I: Inputs>(inputs: &mut I, role: Role, name: &str) -> Result<Octets, Fault>
    ensures { TakesInput (I.supply inputs.old) role name.now result (I.supply inputs.new) }
{
    match inputs.take(name) {
        Ok(Taken::Bytes(bytes)) => Ok(bytes),
        Ok(Taken::Absent) => Err(Fault::Input(role, Trouble::Absent)),
        Ok(Taken::Long) => Err(Fault::Input(role, Trouble::Long)),
        Err(EdgeErr::Failed) => Err(Fault::Input(role, Trouble::Failed)),
        Err(EdgeErr::Memory) => Err(Fault::Memory),
    }
}

/// The accepted table of types of a schema.
fn table_of(alloc: Global, bytes: &[u8]) -> Result<Accepted, Fault>
    ensures { CompileAnswer bytes.now result }
{
    match compile(alloc, bytes) {
        Ok(schema) => Ok(schema),
        Err(CompileErr::Fault(fault)) => Err(Fault::Schema(fault)),
        Err(CompileErr::Memory) => Err(Fault::Memory),
    }
}

/// What is to be done, once the inputs are taken: the names that a schema declares are listed, a script is answered on a value of a type,
/// or such a value is created or shown; or two types of two schemas are compared; or it is told what a proof says of a path in a value of a type;
/// or a script is answered over named heads, under which values of a type stand; or what stands at a path in a value is proved; or a value is
/// given a root that names its type so, and its schema by this text.
#[derive(Drop)]
pub enum Task<'j> {
    List(Accepted),
    Compare(Accepted, TypeNo, Accepted, TypeNo),
    Answer(Accepted, TypeNo, Start, Octets),
    Create(Accepted, TypeNo, Octets),
    Show(Accepted, TypeNo, BlockId),
    Verify(Accepted, TypeNo, BlockId, &'j Path, Octets),
    Serve(Accepted, TypeNo, Octets),
    Prove(Accepted, TypeNo, BlockId, &'j Path),
    Migrate(Accepted, TypeNo, BlockId, &'j str, Txt),
}

/// The type that has a name, which is in the table.
fn type_named(schema: &Accepted, name: &str) -> Option<TypeNo>
    ensures named { option_map (λ ty. ty.0) result ≡ number_named name.now schema.now }
    ensures within { IfSome result (λ ty. ty.0 < length schema.now) }
{
    schema.type_named(name)
}

/// That the types with a name are to be compared, if both are there.
fn plan_types<'j>(schema: Accepted, next: Accepted, ty: &str) -> Result<Task<'j>, Fault>
    ensures { TypesAnswer schema next ty.now result }
{
    let Some(number) = type_named(&schema, ty) else {
        return Err(Fault::Words);
    };
    match type_named(&next, ty) {
        Some(later) => Ok(Task::Compare(schema, number, next, later)),
        None => Err(Fault::Words),
    }
}

/// Takes and compiles the later schema, whose type is to be compared.
fn plan_pair<'j, I: Inputs>(
    alloc: Global,
    inputs: &mut I,
    schema: Accepted,
    next: &str,
    ty: &str,
) -> Result<Task<'j>, Fault>
    ensures { OpensBehind (I.supply inputs.old) schema (λ name. compares name next.now ty.now) result (I.supply inputs.new) }
{
    let bytes = take_input(inputs, Role::Next, next)?;
    let later = table_of(alloc, bytes.as_slice())?;
    plan_types(schema, later, ty)
}

/// Takes the input of a value, if its type is there.
fn plan_value<'j, I: Inputs>(
    inputs: &mut I,
    schema: Accepted,
    ty: &str,
    value: &str,
) -> Result<Task<'j>, Fault>
    ensures { OpensBehind (I.supply inputs.old) schema (λ name. creates name ty.now value.now) result (I.supply inputs.new) }
{
    let Some(number) = type_named(&schema, ty) else {
        return Err(Fault::Words);
    };
    match take_input(inputs, Role::Value, value) {
        Ok(bytes) => Ok(Task::Create(schema, number, bytes)),
        Err(fault) => Err(fault),
    }
}

/// Takes the script, if the type of its value is there.
fn plan_script<'j, I: Inputs>(
    inputs: &mut I,
    schema: Accepted,
    ty: &str,
    start: Start,
    script: &str,
) -> Result<Task<'j>, Fault>
    ensures { OpensBehind (I.supply inputs.old) schema (λ name. runs name ty.now start script.now) result (I.supply inputs.new) }
{
    let Some(number) = type_named(&schema, ty) else {
        return Err(Fault::Words);
    };
    match take_input(inputs, Role::Script, script) {
        Ok(bytes) => Ok(Task::Answer(schema, number, start, bytes)),
        Err(fault) => Err(fault),
    }
}

/// That a root is to be opened, if its type is there.
fn plan_root<'j, I: Inputs>(
    inputs: &mut I,
    schema: Accepted,
    ty: &str,
    root: BlockId,
) -> Result<Task<'j>, Fault>
    ensures { OpensBehind (I.supply inputs.old) schema (λ name. shows name ty.now root.0) result (I.supply inputs.new) }
{
    match type_named(&schema, ty) {
        Some(number) => Ok(Task::Show(schema, number, root)),
        None => Err(Fault::Words),
    }
}

/// That what stands at a path is to be proved, if the type is there in whose value it stands.
fn plan_path<'j, I: Inputs>(
    inputs: &mut I,
    schema: Accepted,
    ty: &str,
    root: BlockId,
    path: &'j Path,
) -> Result<Task<'j>, Fault>
    ensures { OpensBehind (I.supply inputs.old) schema (λ name. proves name ty.now root.0 path.now) result (I.supply inputs.new) }
{
    match type_named(&schema, ty) {
        Some(number) => Ok(Task::Prove(schema, number, root, path)),
        None => Err(Fault::Words),
    }
}

/// The text of a schema that was compiled, without a copy.
fn text_of(source: Octets) -> Txt
    requires { IsUtf8 source }
    ensures { result ≡ source }
{
    Txt::from_string(unsafe { String::from_utf8_unchecked(source.into_vec()) })
}

/// That a value is to be given a root that names its schema, whose bytes these are, if its type is there.
fn plan_move<'j, I: Inputs>(
    inputs: &mut I,
    schema: Accepted,
    ty: &'j str,
    root: BlockId,
    source: Octets,
) -> Result<Task<'j>, Fault>
    requires compiled { Compiles source (table schema) }
    ensures { OpensFrom source (I.supply inputs.old) schema (λ name. migrates name ty.now root.0) result (I.supply inputs.new) }
{
    match type_named(&schema, ty) {
        Some(number) => Ok(Task::Migrate(schema, number, root, ty, text_of(source))),
        None => Err(Fault::Words),
    }
}

/// Takes the input of a proof, if the type is there in whose value it is to say what stands at a path.
fn plan_proof<'j, I: Inputs>(
    inputs: &mut I,
    schema: Accepted,
    ty: &str,
    root: BlockId,
    path: &'j Path,
    proof: &str,
) -> Result<Task<'j>, Fault>
    ensures { OpensBehind (I.supply inputs.old) schema (λ name. verifies name ty.now root.0 path.now proof.now) result (I.supply inputs.new) }
{
    let Some(number) = type_named(&schema, ty) else {
        return Err(Fault::Words);
    };
    match take_input(inputs, Role::Proof, proof) {
        Ok(bytes) => Ok(Task::Verify(schema, number, root, path, bytes)),
        Err(fault) => Err(fault),
    }
}

/// Takes the script over named heads, if the type of their values is there.
fn plan_heads<'j, I: Inputs>(
    inputs: &mut I,
    schema: Accepted,
    ty: &str,
    script: &str,
) -> Result<Task<'j>, Fault>
    ensures { OpensBehind (I.supply inputs.old) schema (λ name. keeps name ty.now script.now) result (I.supply inputs.new) }
{
    let Some(number) = type_named(&schema, ty) else {
        return Err(Fault::Words);
    };
    match take_input(inputs, Role::Script, script) {
        Ok(bytes) => Ok(Task::Serve(schema, number, bytes)),
        Err(fault) => Err(fault),
    }
}

/// Takes the inputs in order, as far as the job leads, and says what is to be done.
pub fn plan<'j, I: Inputs>(
    alloc: Global,
    inputs: &mut I,
    job: &'j Job<'_>,
) -> Result<Task<'j>, Fault>
    ensures { TakesInputs (I.supply inputs.old) (job_seen job.now) result (I.supply inputs.new) }
{
    let bytes = take_input(inputs, Role::Schema, job.schema())?;
    let schema = table_of(alloc, bytes.as_slice())?;
    match job {
        Job::Check(_) => Ok(Task::List(schema)),
        Job::Compat(_, next, ty) => plan_pair(alloc, inputs, schema, next, ty),
        Job::Run(_, ty, start, script) => plan_script(inputs, schema, ty, *start, script),
        Job::New(_, ty, value) => plan_value(inputs, schema, ty, value),
        Job::Verify(_, ty, root, path, proof) => plan_proof(inputs, schema, ty, *root, path, proof),
        Job::Heads(_, ty, script) => plan_heads(inputs, schema, ty, script),
        Job::Prove(_, ty, root, path) => plan_path(inputs, schema, ty, *root, path),
        Job::Migrate(_, ty, root) => plan_move(inputs, schema, ty, *root, bytes),
        Job::Show(_, ty, root) => plan_root(inputs, schema, ty, *root),
    }
}
