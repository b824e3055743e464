//! Reads the path from a chain's entry to its root, and the template of a library.

ghost use Rattle.std.specs.Prelude.{◌≡◌, false, true, IfOk, MatchOption, option_map};
ghost use Rattle.jt_ast.specs.StatementView.{body_view};
ghost use Rattle.jt_ast.specs.Texts.{among};
ghost use Rattle.jt_chains.specs.TemplateFiles.{file_view};
ghost use Rattle.jt_inherit.specs.internal.ExtendsPaths.{AreKnown, IsAt, Reads, names};
ghost use Rattle.jt_inherit.specs.internal.Views.{its_files, its_templates};
ghost use Rattle.jt_inherit.specs.internal.Placing.{IsNamedOn, IsParent, extends_at, is_no_library};
ghost use Rattle.jt_inherit.specs.internal.Numbers.{key_view};

use crate::error::ChainError;
use crate::finding::{ChainFinding, TagPlace};
use crate::library::Library;
use crate::placing::{AskedName, cycle_finding, long_finding, name_finding};
use crate::sets::NamespaceKey;
use crate::store::TemplateStore;
use jt_ast::Stmt;
use jt_chains::TemplateFile;
use jt_scan::Options;
use std::alloc::{AllocError, Global};

/// The greatest number of templates in a chain.
const MAX_TEMPLATES: usize = 64;

/// Returns the number on the path of the template of a name, or `None` if there is none.
#[tactic(auto, using(crate::proofs::PathsGrow::named_here, crate::proofs::PathsGrow::passed_by, crate::proofs::PathsGrow::templates_past))]
fn number_on(store: &TemplateStore, extends_path: &[usize], name: &str) -> Option<usize>
    ensures { MatchOption result
        (among name.now (names (its_templates store.now extends_path.now)) ≡ false)
        (IsNamedOn (its_files store.now) extends_path.now name.now) }
{
    for number in 0..extends_path.len() {
        if let Some(file) = store.files.get(extends_path[number]) {
            if file.name.as_str() == name {
                return Some(number);
            }
        }
    }
    None
}

/// Returns the name of the template that the statements extend, and the line of the tag.
fn parent_of(body: &[Stmt]) -> Option<(&str, u32)>
    ensures { option_map (λ p. (p.0.now, p.1)) result ≡ extends_at (body_view body.now) }
{
    for statement in body {
        if let Stmt::Extends(line, name) = statement {
            return Some((name.as_str(), *line));
        }
    }
    None
}

/// Returns the name that a template extends, with the place of the tag.
fn parent_name(alloc: Global, file: &TemplateFile) -> Result<Option<AskedName>, AllocError>
    ensures { IfOk result (IsParent (file_view file.now)) }
{
    let Some(tag) = parent_of(file.template.body()) else {
        return Ok(None);
    };
    let name = String::from_str(alloc, tag.0)?;
    let template = String::from_str(alloc, &file.name)?;
    Ok(Some(AskedName {
        name,
        place: Some(TagPlace {
            template,
            line: tag.1,
        }),
    }))
}

/// Returns the index of the template of a library, which was read, as the only one of the path.
fn library_path(alloc: Global, store: &TemplateStore, name: &str) -> Result<Vec<usize>, AllocError>
    requires { among name.now (names (its_files store.now)) ≡ true }
    ensures { IfOk result (IsAt (names (its_files store.now)) name.now) }
{
    let Some(index) = store.find(name) else {
        unreachable!();
    };
    let mut extends_path = Vec::new(alloc);
    extends_path.push(index)?;
    Ok(extends_path)
}

/// Reads the templates of a chain, from its entry to the root. Returns their indices, or the index
/// of the template of a library, which was read before.
pub(crate) fn read_namespace<L: Library>(
    alloc: Global,
    store: &mut TemplateStore,
    namespace: &NamespaceKey,
    library: &L,
    options: Options,
) -> Result<Vec<usize>, ChainFinding>
    requires known { AreKnown (L.sources library.now) options
        (its_files store.old) }
    requires library { is_no_library (its_files store.old) (key_view namespace.now) ≡ false }
    ensures { Reads (L.sources library.now) options
        (its_files store.old) (its_files store.new) (key_view namespace.now) result }
{
    if namespace.is_library {
        return Ok(library_path(alloc, store, &namespace.name)?);
    }
    let mut extends_path = Vec::new(alloc);
    let mut asked = AskedName {
        name: String::from_str(alloc, &namespace.name)?,
        place: None,
    };
    'path: loop {
        if let Some(start) = number_on(store, &extends_path, &asked.name) {
            return Err(cycle_finding(alloc, store, &extends_path, start, asked)?);
        }
        if extends_path.len() == MAX_TEMPLATES {
            return Err(long_finding(asked));
        }
        let index = match store.read(alloc, &asked.name, library, options) {
            Ok(index) => index,
            Err(error) => return Err(name_finding(asked, error)),
        };
        extends_path.push(index)?;
        match parent_name(alloc, &store.files[index])? {
            Some(parent) => asked = parent,
            None => return Ok(extends_path),
        }
    }
}
