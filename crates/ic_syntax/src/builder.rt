ghost use Rattle.std.specs.Prelude.{◌≡◌, ◌≢◌, [], ◌∷◌, ◌++◌, map, length, suc, IfOk, IsSome, Some};
ghost use Rattle.def_syntax.specs.Lines.{program_lines, handler_lines, component_lines, joined, Head, Var, Key, End};
ghost use Rattle.ic_syntax.specs.Views.{line_seen, builder_lines, place_lines, open_lines};
ghost use Rattle.ic_syntax.specs.BuilderStates.{AtTop, InComponent, behind, behind_inside, behind_handling, component_state, state_of, script_parts};

use crate::{HandlerBuilder, Line};
use ic_base::{Component, Components, Handler, Items, Kind, Name, Program};
use std::alloc::{AllocError, Global};

/// Where the next line stands.
#[derive(Debug, Drop)]
pub enum OpenItem {
    Outside,
    /// In this component, outside its handlers.
    Inside(Component),
    /// In this handler of the component, which has the handlers that ended.
    Handling(Component, HandlerBuilder),
}

/// A program in the making: its ended components, and what is open.
#[derive(Debug, Drop)]
pub struct ProgramBuilder {
    pub components: Components,
    pub place: OpenItem,
}

fn headed(alloc: Global, name: Name, kind: Kind, immediate: bool) -> Component
    ensures lines { open_lines result ≡ Head name kind immediate ∷ [] }
    ensures state { component_state result ≡ InComponent 0 0 }
{
    Component {
        name,
        kind,
        immediate,
        vars: Items::new(alloc),
        keys: Items::new(alloc),
        handlers: Items::new(alloc),
    }
}

fn with_var(mut current: Component, name: Name, z: i64) -> Result<Component, AllocError>
    requires { IsSome (behind (Var name z) (component_state current)) }
    ensures lines { IfOk result (λ c. open_lines c ≡ open_lines current ++ Var name z ∷ []) }
    ensures state { IfOk result (λ c. behind (Var name z) (component_state current) ≡ Some (component_state c)) }
{
    current.vars.push((name, z))?;
    Ok(current)
}

fn with_key(mut current: Component, name: Name, z: i64) -> Result<Component, AllocError>
    requires { IsSome (behind (Key name z) (component_state current)) }
    ensures lines { IfOk result (λ c. open_lines c ≡ open_lines current ++ Key name z ∷ []) }
    ensures state { IfOk result (λ c. behind (Key name z) (component_state current) ≡ Some (component_state c)) }
{
    current.keys.push((name, z))?;
    Ok(current)
}

fn with_handler(mut current: Component, handler: Handler) -> Result<Component, AllocError>
    ensures lines { IfOk result (λ c. open_lines c ≡ open_lines current ++ handler_lines handler) }
    ensures state { IfOk result (λ c. component_state c ≡ InComponent (length current.keys) (suc (length current.handlers))) }
{
    current.handlers.push(handler)?;
    Ok(current)
}

/// A line inside a component, outside its handlers.
fn inside(alloc: Global, current: Component, line: Line) -> Result<OpenItem, AllocError>
    requires not_end { line ≢ Line.End }
    requires fits { IsSome (behind (line_seen line) (component_state current)) }
    ensures lines { IfOk result (λ p. place_lines p ≡ open_lines current ++ line_seen line ∷ []) }
    ensures state { IfOk result (λ p. behind (line_seen line) (component_state current) ≡ Some (state_of p)) }
{
    match line {
        Line::Var(n, z) => Ok(OpenItem::Inside(with_var(current, n, z)?)),
        Line::Key(n, z) => Ok(OpenItem::Inside(with_key(current, n, z)?)),
        Line::On(n, params) => Ok(OpenItem::Handling(
            current,
            HandlerBuilder::begin(alloc, n, params),
        )),
        _ => unreachable!(),
    }
}

/// A line inside a handler.
fn handling(
    alloc: Global,
    current: Component,
    script: HandlerBuilder,
    line: Line,
) -> Result<OpenItem, AllocError>
    requires { IsSome (behind (line_seen line) (state_of (OpenItem.Handling current script))) }
    ensures lines { IfOk result (λ p. place_lines p ≡ place_lines (OpenItem.Handling current script) ++ line_seen line ∷ []) }
    ensures state { IfOk result (λ p. behind (line_seen line) (state_of (OpenItem.Handling current script)) ≡ Some (state_of p)) }
{
    match line {
        Line::End if script.is_flat() => {
            Ok(OpenItem::Inside(with_handler(current, script.ended())?))
        }
        _ => Ok(OpenItem::Handling(current, script.with_line(alloc, line)?)),
    }
}

fn with_component(
    mut components: Components,
    current: Component,
) -> Result<ProgramBuilder, AllocError>
    ensures lines { IfOk result (λ d. builder_lines d ≡ joined (map component_lines components) ++ (open_lines current ++ End ∷ [])) }
    ensures state { IfOk result (λ d. state_of d.place ≡ AtTop) }
{
    components.push(current)?;
    Ok(ProgramBuilder {
        components,
        place: OpenItem::Outside,
    })
}

impl ProgramBuilder {
    pub fn new(alloc: Global) -> ProgramBuilder
        ensures lines { builder_lines result ≡ [] }
        ensures state { state_of result.place ≡ AtTop }
    {
        ProgramBuilder {
            components: Items::new(alloc),
            place: OpenItem::Outside,
        }
    }

    /// Goes on with one more line, which may stand there. It is refused for want of memory alone.
    pub fn with_line(self, alloc: Global, line: Line) -> Result<ProgramBuilder, AllocError>
        requires { IsSome (behind (line_seen line) (state_of self.place)) }
        ensures lines { IfOk result (λ d. builder_lines d ≡ builder_lines self ++ line_seen line ∷ []) }
        ensures state { IfOk result (λ d. behind (line_seen line) (state_of self.place) ≡ Some (state_of d.place)) }
    {
        let ProgramBuilder { components, place } = self;
        match place {
            OpenItem::Outside => match line {
                Line::Head(n, kind, immediate) => Ok(ProgramBuilder {
                    components,
                    place: OpenItem::Inside(headed(alloc, n, kind, immediate)),
                }),
                _ => unreachable!(),
            },
            OpenItem::Inside(current) => match line {
                Line::End => with_component(components, current),
                _ => Ok(ProgramBuilder {
                    components,
                    place: inside(alloc, current, line)?,
                }),
            },
            OpenItem::Handling(current, script) => Ok(ProgramBuilder {
                components,
                place: handling(alloc, current, script, line)?,
            }),
        }
    }

    /// The program. No component is open.
    pub fn finished(self) -> Program
        requires { state_of self.place ≡ AtTop }
        ensures { program_lines result ≡ builder_lines self }
    {
        let ProgramBuilder { components, place } = self;
        match place {
            OpenItem::Outside => Program { components },
            _ => unreachable!(),
        }
    }
}
