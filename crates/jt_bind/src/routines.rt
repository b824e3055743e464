//! Resolves the routines of a chain or a library: the chain itself, its macros, and the bodies of
//! its blocks.

ghost use Rattle.jt_semantics.specs.Resolve as resolve;
ghost use Rattle.std.specs.Prelude.{◌≡◌};
ghost use Rattle.jt_bind.specs.internal.{senv_of, layer_at, IfOk, body_view, texts, Puts, sets_of};
ghost use Rattle.jt_bind.specs.internal.{AreRoutines, IsRoutine, blocks_in, cenv_in, entry_in};
ghost use Rattle.jt_bind.specs.internal.{macros_in, routines_in, order_in, senv_in, templates_in};
ghost use Rattle.jt_bind.specs.internal.{templates_of, top_in, values, Emits, layers_in};

use crate::Result;
use crate::emission::SlotBody;
use crate::local_counts::body_locals;
use crate::pool::Pool;
use crate::resolver::Resolver;
use crate::senv::StaticEnv;
use crate::tables::Tables;
use jt_ast::Stmt;
use jt_chains::Layer;
use jt_ir::Routine;
use jt_names::parameter_names;
use std::alloc::Global;

/// Returns the environment at the top of a template, where names are globals.
fn top_senv<'s, 'a>(tables: &'s Tables<'_, 'a>, template: usize) -> StaticEnv<'s, 'a>
    ensures { senv_in tables.now result ≡ top_in tables.now template }
{
    StaticEnv {
        template,
        escaping: tables.chain().autoescape,
        body: None,
        name_scopes: &[],
        free: 0,
    }
}

impl<'t, 'f, 's, 'a> Resolver<'t, 'f, 's, 'a> {
    /// Resolves a body as a routine with `parameters`, in a scope of its own.
    fn resolve_routine(
        &self,
        body: &'a [Stmt],
        parameters: Vec<&'a str>,
        pool: &mut Pool,
    ) -> Result<Routine>
        ensures { IfOk result (λ r. IsRoutine (templates_of self.now) (resolve.resolved_routine
            (cenv_in self.now.tables.now) (order_in self.now.tables.now)
            (texts parameters.entry.items) (body_view body.now) (senv_of self.now)) r
            (values pool.old) (values pool.new)) }
    {
        let count = parameters.len();
        let mut done = Vec::new(self.alloc);
        self.resolve_within(body, parameters, &mut done, pool)?;
        let locals = count.max(body_locals(&done)?);
        Ok(Routine {
            parameters: count,
            locals,
            body: done,
        })
    }

    /// Resolves the statements that set names, and appends them.
    fn resolve_sets(&self, body: &'a [Stmt], done: &mut SlotBody, pool: &mut Pool) -> Result<()>
        ensures { IfOk result (λ _. Puts self.now (sets_of self.now (body_view body.now)) done.old
            done.new pool.old pool.new) }
    {
        for statement in body {
            self.resolve_if_set(statement, done, pool)?;
        }
        Ok(())
    }

    /// Resolves the statements of a template of a chain, and appends them. If the template is not
    /// the root, only the statements that set names are resolved.
    #[tactic(auto, using(crate::proofs::emits_of))]
    fn resolve_layer(
        &self,
        body: &'a [Stmt],
        is_root: bool,
        done: &mut SlotBody,
        pool: &mut Pool,
    ) -> Result<()>
        ensures { IfOk result (λ _. Puts self.now (layer_at self.now.tables.now (senv_of self.now)
            (body_view body.now) is_root) done.old done.new pool.old pool.new) }
    {
        if is_root {
            return self.resolve_body(body, done, pool);
        }
        self.resolve_sets(body, done, pool)
    }
}

/// Resolves the templates of a chain and appends them.
fn resolve_layers<'a>(
    alloc: Global,
    tables: &Tables<'_, 'a>,
    layers: &[Layer<'a>],
    done: &mut SlotBody,
    pool: &mut Pool,
) -> Result<()>
    ensures { IfOk result (λ u. Emits (templates_in tables.now) (layers_in tables.now layers.now)
        done.old.items done.new.items (values pool.old) (values pool.new)) }
{
    for (index, layer) in layers.iter().enumerate() {
        let is_root = index + 1 == layers.len();
        let resolver = Resolver {
            alloc,
            tables,
            senv: top_senv(tables, layer.template),
        };
        resolver.resolve_layer(layer.body, is_root, done, pool)?;
    }
    Ok(())
}

/// Resolves the routine of a chain, without its macros and blocks, and appends it. A library has
/// none: it is never rendered.
fn resolve_entry<'a>(
    alloc: Global,
    tables: &Tables<'_, 'a>,
    routines: &mut Vec<Routine>,
    pool: &mut Pool,
) -> Result<()>
    ensures { IfOk result (λ u. AreRoutines (templates_in tables.now) (entry_in tables.now)
        routines.old.items routines.new.items (values pool.old) (values pool.new)) }
{
    let here = tables.here();
    if here.is_library {
        return Ok(());
    }
    tables.stands();
    let layers = tables.chain().layers(alloc, tables.namespace())?;
    let mut done = Vec::new(alloc);
    resolve_layers(alloc, tables, &layers, &mut done, pool)?;
    let locals = body_locals(&done)?;
    routines.push(Routine {
        parameters: 0,
        locals,
        body: done,
    })?;
    Ok(())
}

/// Resolves the macros of a chain or a library and appends their routines.
fn resolve_macros<'a>(
    alloc: Global,
    tables: &Tables<'_, 'a>,
    routines: &mut Vec<Routine>,
    pool: &mut Pool,
) -> Result<()>
    ensures { IfOk result (λ u. AreRoutines (templates_in tables.now) (macros_in tables.now)
        routines.old.items routines.new.items (values pool.old) (values pool.new)) }
{
    let here = tables.here();
    for called in here.known.macros.iter() {
        let resolver = Resolver {
            alloc,
            tables,
            senv: top_senv(tables, called.template),
        };
        let parameters = parameter_names(alloc, called.parameters)?;
        routines.push(resolver.resolve_routine(called.body, parameters, pool)?)?;
    }
    Ok(())
}

/// Resolves the bodies of a chain's blocks and appends their routines.
fn resolve_blocks<'a>(
    alloc: Global,
    tables: &Tables<'_, 'a>,
    routines: &mut Vec<Routine>,
    pool: &mut Pool,
) -> Result<()>
    ensures { IfOk result (λ u. AreRoutines (templates_in tables.now) (blocks_in tables.now)
        routines.old.items routines.new.items (values pool.old) (values pool.new)) }
{
    let here = tables.here();
    for (index, block) in here.known.blocks.iter().enumerate() {
        let senv = StaticEnv {
            escaping: block.escaping,
            body: Some(index),
            ..top_senv(tables, block.template)
        };
        let resolver = Resolver {
            alloc,
            tables,
            senv,
        };
        let parameters = Vec::from_slice(alloc, tables.block_parameters(block.name))?;
        routines.push(resolver.resolve_routine(block.body, parameters, pool)?)?;
    }
    Ok(())
}

/// Resolves a chain or a library, its macros and the bodies of its blocks, and appends their
/// routines.
pub(crate) fn resolve_namespace<'a>(
    alloc: Global,
    tables: &Tables<'_, 'a>,
    routines: &mut Vec<Routine>,
    pool: &mut Pool,
) -> Result<()>
    ensures { IfOk result (λ u. AreRoutines (templates_in tables.now) (routines_in tables.now)
        routines.old.items routines.new.items (values pool.old) (values pool.new)) }
{
    resolve_entry(alloc, tables, routines, pool)?;
    resolve_macros(alloc, tables, routines, pool)?;
    resolve_blocks(alloc, tables, routines, pool)
}
